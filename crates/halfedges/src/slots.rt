// Slots and the index: one record or one entry at a time.
ghost use Rattle.std.specs.Prelude.{◌≡◌, ℕ, ◌-◌, ◌<◌, ◌≤◌, length, slice_set, ℤ, pos, neg_ℤ, ◌≤ℤ◌, Option};
ghost use Rattle.turning.specs.Limits.{max_edge, slots};
ghost use Rattle.halfedges.specs.View.{bare, none, seen, row_of, written, noted};
ghost use Rattle.halfedges.specs.Rows.{points_of, Packed, used, Blank};

use crate::halfedge::{FREE, Halfedge};
use chart::point::Point;
use turning::limits::{MAX_NAME, SLOTS};

// The slot of a name's home row, or 0 where it has none. A number and no Option: the index itself has 0 there, and a slot of 0 reads as a free row.
pub fn slot(rows: &[Halfedge], h: i16) -> usize
    ensures { result ≡ (seen rows.now).entry h }
{
    if rows.len() < SLOTS || h < -MAX_NAME || h > MAX_NAME {
        return 0;
    }
    let k = (h + MAX_NAME) as usize;
    rows[k / 3].index[k % 3] as usize
}

// The row at a slot; a free one where there is none.
pub fn read(rows: &[Halfedge], s: usize) -> Halfedge
    ensures { bare result ≡ (seen rows.now).row s }
{
    if s == 0 || s > rows.len() {
        return FREE;
    }
    rows[s - 1]
}

// The row of a name; a free one where it has none.
pub fn row_of(rows: &[Halfedge], h: i16) -> Halfedge
    ensures { bare result ≡ row_of (seen rows.now) h }
{
    let s = slot(rows, h);
    read(rows, s)
}

// The point where a name starts.
pub fn point_of(rows: &[Halfedge], h: i16) -> Option<Point>
    ensures { result ≡ points_of (seen rows.now) h }
{
    let s = slot(rows, h);
    if s == 0 {
        return None;
    }
    let r = read(rows, s);
    Some(Point { x: r.x, y: r.y })
}

// Puts a row at a slot, and leaves the index.
pub fn write(rows: &mut [Halfedge], s: usize, r: Halfedge)
    requires long { slots ≤ length rows.old }
    requires low { 1 ≤ s }
    requires high { s ≤ slots }
    ensures { seen rows.new ≡ written s (bare r) (seen rows.old) }
{
    let index = rows[s - 1].index;
    rows[s - 1] = Halfedge { index, ..r };
}

// Sets one of a record's entries, and tells that there are three, as its type has it.
fn set_entry(index: &mut [u16; 3], place: usize, s: u16)
    requires { place < 3 }
    ensures set { index.new ≡ slice_set index.old place s }
    ensures three { length index.old ≡ 3 }
{
    index[place] = s;
}

// Notes the slot of a name in the index.
pub fn note(rows: &mut [Halfedge], h: i16, s: u16)
    requires long { slots ≤ length rows.old }
    requires low { neg_ℤ (pos max_edge) ≤ℤ h }
    requires high { h ≤ℤ pos max_edge }
    ensures { seen rows.new ≡ noted h s (seen rows.old) }
{
    let k = (h + MAX_NAME) as usize;
    set_entry(&mut rows[k / 3].index, k % 3, s);
}

// A slot whose row has no name: a call of the next with nothing known.
pub fn free_slot(rows: &[Halfedge]) -> usize
    requires long { slots ≤ length rows.now }
    requires room { used slots (seen rows.now) < slots }
    ensures low { 1 ≤ result }
    ensures high { result ≤ slots }
    ensures free { ((seen rows.now).row result).name ≡ pos 0 }
{
    free_slot_past(rows, 0)
}

// The first slot whose row has no name, after those that are known to be used.
pub fn free_slot_past(rows: &[Halfedge], known: usize) -> usize
    requires long { slots ≤ length rows.now }
    requires room { used slots (seen rows.now) < slots }
    requires packed { Packed known (seen rows.now) }
    ensures low { 1 ≤ result }
    ensures high { result ≤ slots }
    ensures free { ((seen rows.now).row result).name ≡ pos 0 }
    ensures packed { Packed (result - 1) (seen rows.now) }
{
    let first = rows[known..SLOTS].iter().position(|r| r.name == 0);
    known + first.unwrap() + 1
}

// The number of slots in use.
pub fn count_used(rows: &[Halfedge]) -> usize
    requires { slots ≤ length rows.now }
    ensures { result ≡ used slots (seen rows.now) }
{
    // A sum, since a test of each record in a filter would branch, at a cost that a join feels.
    rows[..SLOTS].iter().map(|r| usize::from(r.name != 0)).sum()
}

// Frees every record and every entry.
pub fn free_all(rows: &mut [Halfedge])
    ensures { Blank rows.new }
{
    rows.fill(FREE);
}
