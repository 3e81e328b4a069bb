// Cuts and knits: a stripped sheet gets a border more or a border less, and its chart stays the same.
ghost use Rattle.std.specs.Prelude.{◌≡◌, ℕ, ◌<◌, ◌≤◌, Bool, true, false, length, ℤ, pos, slice_index_or};
ghost use Rattle.turning.specs.Limits.{max_edge, slots};
ghost use Rattle.turning.specs.Counts.{Flat};
ghost use Rattle.halfedges.specs.View.{seen};
ghost use Rattle.halfedges.specs.Rows.{turn_of, lines_in, Core};
ghost use Rattle.strips.specs.Borders.{slots_taken};
ghost use Rattle.strips.specs.Seams.{with_border, without_border, is_border, Cuts, Knits};
ghost use Rattle.strips.specs.Sheets.{Kept, room_of, sheet_of};

use crate::borders::{Borders, List, append, of_list, strip_count, strip_of};
use crate::recut::recut;
use crate::sheet::Sheet;
use crate::taken::slots_needed;
use chart::point::is_within;
use halfedges::halfedge::Rows;
use turning::limits::{MAX_BORDERS, MAX_STRIPS, SLOTS};
use turning::refusal::Refusal;

// Is x one of the borders?
fn has_border(borders: &Borders, x: i32) -> bool
    ensures { result ≡ is_border x borders.now.items }
{
    borders.as_slice().contains(&x)
}

// The borders with x put in, part by part: `insert` would move those east of x by `memmove`, which an archive for C needs from outside.
fn put_in(borders: &Borders, x: i32) -> Borders
    requires { length borders.now.items < MAX_BORDERS }
    ensures { result.items ≡ with_border x borders.now.items }
{
    let (west, east) = borders
        .as_slice()
        .split_at(strip_of(borders, x) as usize - 1);
    let mut more = List::new();
    append(&mut more, west);
    more.push(x);
    append(&mut more, east);
    of_list(more.as_slice())
}

// The borders with x taken out.
fn take_out(borders: &Borders, x: i32) -> Borders
    ensures { result.items ≡ without_border x borders.now.items }
{
    let mut fewer = List::new();
    append(&mut fewer, borders.as_slice());
    fewer.retain(|b| *b != x);
    of_list(fewer.as_slice())
}

// Puts the rows of a memory that is long enough into the strips of the borders; a shorter one has none.
fn lay_out(rows: &mut Rows, borders: &Borders)
    requires core { slots ≤ length rows.old.at.now → Core max_edge slots rows.old.at.now }
    requires room { slots_taken borders.now.items (lines_in (seen rows.old.at.now)) max_edge ≤ slots }
    ensures kept { Kept borders.now.items rows.new.at.now }
    ensures lines { lines_in (seen rows.new.at.now) ≡ lines_in (seen rows.old.at.now) }
    ensures slots { room_of rows.new.at.now ≡ room_of rows.old.at.now }
{
    if rows.is_long() {
        recut(rows, borders);
    }
}

impl Sheet<'_> {
    // How many slots the sheet has: none where its memory is too short.
    pub(crate) fn slot_count(&self) -> u32
        ensures { result ≡ room_of self.now.rows.at.now }
    {
        if self.rows.is_long() { SLOTS as u32 } else { 0 }
    }

    // Cuts the sheet at a new border.
    pub fn cut(&mut self, x: i32) -> Result<(), Refusal>
        ensures done { Cuts max_edge (sheet_of self.old.borders.items self.old.rows.at.now) x result (sheet_of self.new.borders.items self.new.rows.at.now) }
        ensures flat { Flat max_edge (turn_of (seen self.old.rows.at.now)) → Flat max_edge (turn_of (seen self.new.rows.at.now)) }
    {
        if !is_within(x) {
            return Err(Refusal::BorderOutOfRange);
        }
        if has_border(&self.borders, x) {
            return Err(Refusal::WrongBorder);
        }
        if strip_count(&self.borders) as usize >= MAX_STRIPS {
            return Err(Refusal::TooManyStrips);
        }
        let borders = put_in(&self.borders, x);
        if slots_needed(self, &borders) > self.slot_count() {
            return Err(Refusal::NoRoom);
        }
        lay_out(&mut self.rows, &borders);
        self.borders = borders;
        Ok(())
    }

    // Knits the sheet together at a border.
    pub fn knit(&mut self, x: i32) -> Result<(), Refusal>
        ensures done { Knits max_edge (sheet_of self.old.borders.items self.old.rows.at.now) x result (sheet_of self.new.borders.items self.new.rows.at.now) }
        ensures flat { Flat max_edge (turn_of (seen self.old.rows.at.now)) → Flat max_edge (turn_of (seen self.new.rows.at.now)) }
    {
        if !is_within(x) {
            return Err(Refusal::BorderOutOfRange);
        }
        if !has_border(&self.borders, x) {
            return Err(Refusal::WrongBorder);
        }
        let borders = take_out(&self.borders, x);
        lay_out(&mut self.rows, &borders);
        self.borders = borders;
        Ok(())
    }
}
