// The links of one name at a time: what leads to what, and a name that comes in or goes out.
ghost use Rattle.std.specs.Prelude.{◌≡◌, ◌-◌, ◌<◌, ◌≤◌, true, length, ℤ, pos, neg_ℤ, ◌≤ℤ◌, Option, slice_index_or};
ghost use Rattle.std.specs.Borrow.{sem};
ghost use Rattle.turning.specs.Limits.{max_edge, slots};
ghost use Rattle.chart.specs.declared.point.Point.{Point};
ghost use Rattle.laws.specs.Rotations.{Rotation, Fresh};
ghost use Rattle.halfedges.specs.View.{none, bare, seen};
ghost use Rattle.halfedges.specs.Lending.{LendsRow};
ghost use Rattle.halfedges.specs.Rows.{turn_of, Indexed, unhooked, settled, hooked, CornerHeld, Brought, used};

use crate::halfedge::{FREE, Halfedge};
use crate::slots::{free_slot, note, read, slot, write};
use chart::point::Point;

// The home row of a held name, to be changed.
fn held_row(rows: &mut [Halfedge], h: i16) -> &mut Halfedge
    requires indexed { Indexed slots (seen rows.old) }
    requires here { (turn_of (seen rows.old)).held h ≡ true }
    ensures* lent { sem 𝓛 (LendsRow rows.entry h result) }
    ensures value { result.now ≡ slice_index_or rows.old ((seen rows.old).entry h - 1) none }
{
    let s = slot(rows, h);
    &mut rows[s - 1]
}

// Takes the name h out of its round, and frees its row.
pub fn unhook(rows: &mut [Halfedge], h: i16)
    requires indexed { Indexed slots (seen rows.old) }
    requires rotation { Rotation max_edge (turn_of (seen rows.old)) }
    requires here { (turn_of (seen rows.old)).held h ≡ true }
    ensures { seen rows.new ≡ unhooked h (seen rows.old) }
{
    let s = slot(rows, h);
    let r = read(rows, s);
    held_row(rows, r.predecessor).follower = r.follower;
    held_row(rows, r.follower).predecessor = r.predecessor;
    write(rows, s, FREE);
    note(rows, h, 0);
}

// Puts a row at a slot, and notes the slot under the row's name.
fn settle(rows: &mut [Halfedge], s: usize, r: Halfedge)
    requires long { slots ≤ length rows.old }
    requires low { 1 ≤ s }
    requires high { s ≤ slots }
    requires least { neg_ℤ (pos max_edge) ≤ℤ r.name }
    requires most { r.name ≤ℤ pos max_edge }
    ensures { seen rows.new ≡ settled s r.name (bare r) (seen rows.old) }
{
    write(rows, s, r);
    note(rows, r.name, s as u16);
}

// Brings the name k in at a free slot, directly after its corner, or alone where it has none.
fn hook(rows: &mut [Halfedge], s: usize, strip: u16, k: i16, corner: Option<i16>, at: Point)
    requires long { slots ≤ length rows.old }
    requires indexed { Indexed slots (seen rows.old) }
    requires rotation { Rotation max_edge (turn_of (seen rows.old)) }
    requires low { 1 ≤ s }
    requires high { s ≤ slots }
    requires fresh { Fresh max_edge (turn_of (seen rows.old)) k }
    requires corner { CornerHeld (seen rows.old) corner }
    ensures { seen rows.new ≡ hooked s strip k corner at (seen rows.old) }
{
    let row = Halfedge {
        strip,
        name: k,
        follower: k,
        predecessor: k,
        x: at.x,
        y: at.y,
        index: [0; 3],
    };
    match corner {
        None => settle(rows, s, row),
        Some(c) => {
            let i = slot(rows, c);
            let after = read(rows, i).follower;
            held_row(rows, c).follower = k;
            held_row(rows, after).predecessor = k;
            settle(
                rows,
                s,
                Halfedge {
                    follower: after,
                    predecessor: c,
                    ..row
                },
            );
        }
    }
}

// Brings the name k in at any free slot, directly after its corner, or alone where it has none.
pub fn bring(rows: &mut [Halfedge], strip: u16, k: i16, corner: Option<i16>, at: Point)
    requires long { slots ≤ length rows.old }
    requires indexed { Indexed slots (seen rows.old) }
    requires rotation { Rotation max_edge (turn_of (seen rows.old)) }
    requires room { used slots (seen rows.old) < slots }
    requires fresh { Fresh max_edge (turn_of (seen rows.old)) k }
    requires corner { CornerHeld (seen rows.old) corner }
    ensures { Brought slots strip k corner at (seen rows.old) (seen rows.new) }
{
    let s = free_slot(rows);
    hook(rows, s, strip, k, corner, at);
}
