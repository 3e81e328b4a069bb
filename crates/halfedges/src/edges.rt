// Whole edges: both names of an edge come in, go out, or make room for a point between. Each name starts in a strip that the store tells.
ghost use Rattle.std.specs.Prelude.{◌≡◌, ℕ, ◌+◌, ◌≤◌, true, ℤ, pos, neg_ℤ, ◌≢◌};
ghost use Rattle.flat.specs.Orbits.{indicator};
ghost use Rattle.turning.specs.Limits.{max_edge, slots};
ghost use Rattle.chart.specs.Changes.{at as change_at, lifted, cleft};
ghost use Rattle.laws.specs.Rotations.{Ends, Cuts};
ghost use Rattle.halfedges.specs.View.{seen};
ghost use Rattle.halfedges.specs.Rows.{turn_of, strips_of, lines_in, used, Unlinked, same_place, slot_count, Core, hung_between};

use crate::halfedge::Rows;
use crate::links::{bring, unhook};
use chart::point::{End, Point};

// The strips where the two names of an edge start.
#[derive(Clone, Copy)]
pub struct Span {
    pub west: u16,
    pub east: u16,
}

// Brings both names of an edge in, between two ends that stand west to east.
pub fn hang_edge(rows: &mut Rows, edge: u16, start: End, end: End, span: Span)
    requires core { Core max_edge slots rows.old.at.now }
    requires ends { Ends max_edge (lines_in (seen rows.old.at.now)) edge start.point end.point start.corner end.corner }
    requires room { used slots (seen rows.old.at.now) + 2 ≤ slots }
    ensures lines { lines_in (seen rows.new.at.now) ≡ hung_between edge start end (lines_in (seen rows.old.at.now)) }
    ensures core { Core max_edge slots rows.new.at.now }
    ensures used { used slots (seen rows.new.at.now) ≡ used slots (seen rows.old.at.now) + 2 }
    ensures strips { strips_of (seen rows.new.at.now) ≡ change_at (neg_ℤ (pos edge)) span.east (change_at (pos edge) span.west (strips_of (seen rows.old.at.now))) }
    ensures counted { (i : ℕ) (h : ℤ) → (h ≢ pos 0) → slot_count slots (seen rows.new.at.now) i h ≡ indicator (same_place span.east (neg_ℤ (pos edge)) i h) + (indicator (same_place span.west (pos edge) i h) + slot_count slots (seen rows.old.at.now) i h) }
    ensures unlinked { Unlinked slots (seen rows.old.at.now) → Unlinked slots (seen rows.new.at.now) }
{
    let e = edge as i16;
    bring(rows.at, span.west, e, start.corner, start.point);
    bring(rows.at, span.east, -e, end.corner, end.point);
}

// Takes both names of an edge out.
pub fn lift_edge(rows: &mut Rows, edge: u16)
    requires core { Core max_edge slots rows.old.at.now }
    requires here { (turn_of (seen rows.old.at.now)).held (pos edge) ≡ true }
    ensures lines { lines_in (seen rows.new.at.now) ≡ lifted edge (lines_in (seen rows.old.at.now)) }
    ensures core { Core max_edge slots rows.new.at.now }
    ensures used { used slots (seen rows.new.at.now) + 2 ≡ used slots (seen rows.old.at.now) }
    ensures strips { strips_of (seen rows.new.at.now) ≡ change_at (neg_ℤ (pos edge)) 0 (change_at (pos edge) 0 (strips_of (seen rows.old.at.now))) }
    ensures counted { (i : ℕ) (h : ℤ) → (h ≢ pos 0) → slot_count slots (seen rows.old.at.now) i h ≡ indicator (same_place (strips_of (seen rows.old.at.now) (pos edge)) (pos edge) i h) + (indicator (same_place (strips_of (seen rows.old.at.now) (neg_ℤ (pos edge))) (neg_ℤ (pos edge)) i h) + slot_count slots (seen rows.new.at.now) i h) }
    ensures unlinked { Unlinked slots (seen rows.old.at.now) → Unlinked slots (seen rows.new.at.now) }
{
    let e = edge as i16;
    unhook(rows.at, e);
    unhook(rows.at, -e);
}

// Splits an edge that ends at `to`: the eastern part's end takes the place of the old end, and the old end moves to the new point, in the western strip of the span.
pub fn cleave_edge(rows: &mut Rows, edge: u16, east: u16, at: Point, to: Point, span: Span)
    requires core { Core max_edge slots rows.old.at.now }
    requires cuts { Cuts max_edge (lines_in (seen rows.old.at.now)) edge east at to }
    requires room { used slots (seen rows.old.at.now) + 2 ≤ slots }
    ensures lines { lines_in (seen rows.new.at.now) ≡ cleft edge east at (lines_in (seen rows.old.at.now)) }
    ensures core { Core max_edge slots rows.new.at.now }
    ensures used { used slots (seen rows.new.at.now) ≡ used slots (seen rows.old.at.now) + 2 }
    ensures strips { strips_of (seen rows.new.at.now) ≡ change_at (pos east) span.west (change_at (neg_ℤ (pos edge)) span.west (change_at (neg_ℤ (pos east)) span.east (strips_of (seen rows.old.at.now)))) }
    ensures counted { (i : ℕ) (h : ℤ) → (h ≢ pos 0) → indicator (same_place (strips_of (seen rows.old.at.now) (neg_ℤ (pos edge))) (neg_ℤ (pos edge)) i h) + slot_count slots (seen rows.new.at.now) i h ≡ indicator (same_place span.west (pos east) i h) + (indicator (same_place span.west (neg_ℤ (pos edge)) i h) + (indicator (same_place span.east (neg_ℤ (pos east)) i h) + slot_count slots (seen rows.old.at.now) i h)) }
    ensures unlinked { Unlinked slots (seen rows.old.at.now) → Unlinked slots (seen rows.new.at.now) }
{
    let e = -(edge as i16);
    let f = east as i16;
    bring(rows.at, span.east, -f, Some(e), to);
    unhook(rows.at, e);
    bring(rows.at, span.west, e, None, at);
    bring(rows.at, span.west, f, Some(e), at);
}
