// The stripped sheet: a store in one lent slice of records, two slots an edge in each strip that it runs through.
ghost use Rattle.std.specs.Prelude.{◌≡◌, ◌<◌, ◌≤◌, true, false, [], ◌∷◌, length, nat_le};
ghost use Rattle.turning.specs.Limits.{slots};
ghost use Rattle.turning.specs.Refusals.{asked};
ghost use Rattle.turning.specs.declared.refusal.Refusal.TheVariants.{ShortMemory};
ghost use Rattle.chart.specs.declared.point.Point.{Point};
ghost use Rattle.chart.specs.Linework.{no_lines};
ghost use Rattle.halfedges.specs.View.{seen};
ghost use Rattle.halfedges.specs.Rows.{turn_of, points_of, lines_in};
ghost use Rattle.strips.specs.Borders.{rising};
ghost use Rattle.strips.specs.Sheets.{Kept, lawful_of, frame_of, fits_of};

use crate::borders;
use crate::borders::{Borders, strip_of};
use crate::changes::{cleave_through, hang_through, lift_through};
use chart::asks::{east_end, holds_edge, may_cleave, may_hang, west_to_east};
use chart::point::{End, Point};
use chart::{Chart, Store};
use halfedges::halfedge::{Halfedge, Rows};
use halfedges::slots;
use turning::Turning;
use turning::limits::SLOTS;
use turning::refusal::Refusal;

// Line work cut into strips, in memory that the caller lends. Where the memory is too short, the sheet holds nothing and nothing fits.
#[derive(Drop)]
pub struct Sheet<'a> {
    pub(crate) rows: Rows<'a>,
    pub(crate) borders: Borders,
    ghost ok: { ∥ Kept borders.items rows.at.now ∥₁ },
    ghost rises: { rising borders.items ≡ true },
}

impl<'a> Sheet<'a> {
    // An empty sheet of one strip, whatever the memory held. A memory that is too short is left as it is; `ready` then refuses.
    pub fn new(memory: &'a mut [Halfedge]) -> Sheet<'a>
        ensures empty { lines_in (seen result.rows.at.now) ≡ no_lines }
        ensures uncut { result.borders.items ≡ [] }
        ensures length { length result.rows.at.now ≡ length memory.old }
        ensures left { length memory.old < slots → result.rows.at.now ≡ memory.old }
    {
        let rows = Rows::new(memory);
        Sheet {
            rows,
            borders: borders::none(),
        }
    }

    // The empty sheet of one strip, whatever it held before.
    pub fn clear(&mut self)
        ensures empty { lines_in (seen self.new.rows.at.now) ≡ no_lines }
        ensures uncut { self.new.borders.items ≡ [] }
        ensures length { length self.new.rows.at.now ≡ length self.old.rows.at.now }
        ensures left { length self.old.rows.at.now < slots → self.new.rows.at.now ≡ self.old.rows.at.now }
    {
        self.rows.clear();
        self.borders = borders::none();
    }

    // Has the memory that the sheet was given enough records?
    pub fn ready(&self) -> Result<(), Refusal>
        ensures { result ≡ asked ((nat_le slots (length self.now.rows.at.now), ShortMemory) ∷ []) tt }
    {
        self.rows.ready()
    }

    // Do the slots of an edge between the two points fit?
    fn has_room(&self, p: Point, q: Point) -> bool
        ensures { result ≡ fits_of self.now.borders.items self.now.rows.at.now p q }
    {
        if !self.rows.is_long() {
            return false;
        }
        let crossed = strip_of(&self.borders, p.x).abs_diff(strip_of(&self.borders, q.x));
        slots::count_used(self.rows.at) + 2 * (crossed as usize + 1) <= SLOTS
    }
}

// One line each over the lent records, as in a table: why the records have no such impl, and why the two stores share no changes, stands there.
impl Turning for Sheet<'_> {
    ghost turn = { λ s. turn_of (seen s.rows.at.now) };

    ghost lawful = { λ s. lawful_of s.borders.items s.rows.at.now s.ok };

    fn holds(&self, h: i16) -> bool {
        slots::slot(self.rows.at, h) != 0
    }

    fn follower(&self, h: i16) -> i16 {
        slots::row_of(self.rows.at, h).follower
    }

    fn predecessor(&self, h: i16) -> i16 {
        slots::row_of(self.rows.at, h).predecessor
    }
}

impl Chart for Sheet<'_> {
    ghost points = { λ s. points_of (seen s.rows.at.now) };

    fn point(&self, h: i16) -> Option<Point> {
        slots::point_of(self.rows.at, h)
    }

    fn placed(&self) {}
}

impl Store for Sheet<'_> {
    ghost frame = { λ s. frame_of s.borders.items s.rows.at.now };

    ghost fits = { λ s. fits_of s.borders.items s.rows.at.now };

    fn hang(&mut self, edge: u16, a: End, b: End) -> bool {
        let fits = self.has_room(a.point, b.point);
        if !may_hang(self, edge, a, b, fits) {
            return false;
        }
        let (start, end) = west_to_east(a, b);
        hang_through(&mut self.rows, &self.borders, edge, start, end);
        true
    }

    fn lift(&mut self, edge: u16) -> bool {
        if !holds_edge(self, edge) {
            return false;
        }
        lift_through(&mut self.rows, &self.borders, edge);
        true
    }

    fn cleave(&mut self, edge: u16, east: u16, at: Point) -> bool {
        let fits = self.has_room(at, at);
        if !may_cleave(self, edge, east, at, fits) {
            return false;
        }
        let Some(to) = east_end(self, edge) else {
            return false;
        };
        cleave_through(&mut self.rows, &self.borders, edge, east, at, to);
        true
    }
}
