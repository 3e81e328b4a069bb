// External rows: the slots of a halfedge in the strips that its edge runs through, beside the strip where it starts.
// Such a row has a strip and a name alone, and the index does not lead to it.
ghost use Rattle.std.specs.Prelude.{◌≡◌, ℕ, ◌+◌, ◌-◌, ◌*◌, ◌<◌, ◌≤◌, true, length, ℤ, pos, neg_ℤ, ◌≢◌};
ghost use Rattle.flat.specs.Orbits.{indicator};
ghost use Rattle.turning.specs.Limits.{max_edge, slots};
ghost use Rattle.halfedges.specs.View.{seen};
ghost use Rattle.halfedges.specs.Rows.{turn_of, strips_of, Packed, used, Unlinked, same_place, row_in, slot_count, externals, Planted, Core};

use crate::halfedge::{FREE, Halfedge};
use crate::slots::{free_slot_past, row_of, write};
use turning::limits::SLOTS;

// A slot of the name k in the strip, where there is one.
fn find_slot(rows: &[Halfedge], strip: u16, k: i16) -> usize
    requires long { slots ≤ length rows.now }
    requires there { 1 ≤ slot_count slots (seen rows.now) strip k }
    ensures low { 1 ≤ result }
    ensures high { result ≤ slots }
    ensures found { row_in (seen rows.now) strip k result ≡ true }
{
    let first = rows[..SLOTS]
        .iter()
        .position(|r| r.name == k && r.strip == strip);
    first.unwrap() + 1
}

// Puts an external row of the name k into the strip, at any free slot: a call of the next with nothing known, so that callers need not show that the slots before are used.
pub fn plant(rows: &mut [Halfedge], strip: u16, k: i16)
    requires core { Core max_edge slots rows.old }
    requires room { used slots (seen rows.old) < slots }
    requires some { k ≢ pos 0 }
    ensures core { Core max_edge slots rows.new }
    ensures planted { Planted slots 1 (λ i h. indicator (same_place strip k i h)) (seen rows.old) (seen rows.new) }
    ensures unlinked { Unlinked slots (seen rows.old) → Unlinked slots (seen rows.new) }
{
    plant_past(rows, strip, k, 0);
}

// Puts an external row of the name k into the strip, at the first free slot, and tells how many slots are known to be used then.
pub fn plant_past(rows: &mut [Halfedge], strip: u16, k: i16, known: usize) -> usize
    requires core { Core max_edge slots rows.old }
    requires room { used slots (seen rows.old) < slots }
    requires some { k ≢ pos 0 }
    requires packed { Packed known (seen rows.old) }
    ensures core { Core max_edge slots rows.new }
    ensures planted { Planted slots 1 (λ i h. indicator (same_place strip k i h)) (seen rows.old) (seen rows.new) }
    ensures unlinked { Unlinked slots (seen rows.old) → Unlinked slots (seen rows.new) }
    ensures packed { Packed result (seen rows.new) }
{
    let s = free_slot_past(rows, known);
    write(
        rows,
        s,
        Halfedge {
            strip,
            name: k,
            ..FREE
        },
    );
    s
}

// Frees the external row of the name k in the strip, which is not the strip where k starts: to plant it again would undo this.
pub fn uproot(rows: &mut [Halfedge], strip: u16, k: i16)
    requires core { Core max_edge slots rows.old }
    requires there { 1 ≤ slot_count slots (seen rows.old) strip k }
    requires some { k ≢ pos 0 }
    requires away { strips_of (seen rows.old) k ≢ strip }
    ensures core { Core max_edge slots rows.new }
    ensures planted { Planted slots 1 (λ i h. indicator (same_place strip k i h)) (seen rows.new) (seen rows.old) }
    ensures unlinked { Unlinked slots (seen rows.old) → Unlinked slots (seen rows.new) }
{
    let s = find_slot(rows, strip, k);
    write(rows, s, FREE);
}

// Puts the external rows of a held edge into the strips between its two ends: -edge west of each border that it crosses, +edge east of it. A call of the next with nothing known.
pub fn plant_edge(rows: &mut [Halfedge], edge: u16)
    requires core { Core max_edge slots rows.old }
    requires here { (turn_of (seen rows.old)).held (pos edge) ≡ true }
    requires eastward { strips_of (seen rows.old) (pos edge) ≤ strips_of (seen rows.old) (neg_ℤ (pos edge)) }
    requires room { used slots (seen rows.old) + 2 * (strips_of (seen rows.old) (neg_ℤ (pos edge)) - strips_of (seen rows.old) (pos edge)) ≤ slots }
    ensures core { Core max_edge slots rows.new }
    ensures planted { Planted slots (2 * (strips_of (seen rows.old) (neg_ℤ (pos edge)) - strips_of (seen rows.old) (pos edge))) (externals edge (strips_of (seen rows.old) (pos edge)) (strips_of (seen rows.old) (neg_ℤ (pos edge)))) (seen rows.old) (seen rows.new) }
    ensures unlinked { Unlinked slots (seen rows.old) → Unlinked slots (seen rows.new) }
{
    plant_edge_past(rows, edge, 0);
}

// The same, at the first free slots. Those that are known to be used are passed over, and it tells how many are known then: whoever plants many edges goes over the records once.
pub fn plant_edge_past(rows: &mut [Halfedge], edge: u16, known: usize) -> usize
    requires core { Core max_edge slots rows.old }
    requires here { (turn_of (seen rows.old)).held (pos edge) ≡ true }
    requires eastward { strips_of (seen rows.old) (pos edge) ≤ strips_of (seen rows.old) (neg_ℤ (pos edge)) }
    requires room { used slots (seen rows.old) + 2 * (strips_of (seen rows.old) (neg_ℤ (pos edge)) - strips_of (seen rows.old) (pos edge)) ≤ slots }
    requires packed { Packed known (seen rows.old) }
    ensures core { Core max_edge slots rows.new }
    ensures planted { Planted slots (2 * (strips_of (seen rows.old) (neg_ℤ (pos edge)) - strips_of (seen rows.old) (pos edge))) (externals edge (strips_of (seen rows.old) (pos edge)) (strips_of (seen rows.old) (neg_ℤ (pos edge)))) (seen rows.old) (seen rows.new) }
    ensures unlinked { Unlinked slots (seen rows.old) → Unlinked slots (seen rows.new) }
    ensures packed { Packed result (seen rows.new) }
{
    let e = edge as i16;
    let back = -e;
    let west = row_of(rows, e).strip;
    let east = row_of(rows, back).strip;
    let mut known = known;
    for i in west..east {
        known = plant_past(rows, i, back, known);
        known = plant_past(rows, i + 1, e, known);
    }
    known
}

// Frees the external rows of a held edge, where each has its slot: to plant them again would undo this.
pub fn uproot_edge(rows: &mut [Halfedge], edge: u16)
    requires core { Core max_edge slots rows.old }
    requires here { (turn_of (seen rows.old)).held (pos edge) ≡ true }
    requires eastward { strips_of (seen rows.old) (pos edge) ≤ strips_of (seen rows.old) (neg_ℤ (pos edge)) }
    requires there { (i : ℕ) (h : ℤ) → (h ≢ pos 0) → externals edge (strips_of (seen rows.old) (pos edge)) (strips_of (seen rows.old) (neg_ℤ (pos edge))) i h ≤ slot_count slots (seen rows.old) i h }
    ensures core { Core max_edge slots rows.new }
    ensures planted { Planted slots (2 * (strips_of (seen rows.old) (neg_ℤ (pos edge)) - strips_of (seen rows.old) (pos edge))) (externals edge (strips_of (seen rows.old) (pos edge)) (strips_of (seen rows.old) (neg_ℤ (pos edge)))) (seen rows.new) (seen rows.old) }
    ensures unlinked { Unlinked slots (seen rows.old) → Unlinked slots (seen rows.new) }
{
    let e = edge as i16;
    let back = -e;
    let west = row_of(rows, e).strip;
    let east = row_of(rows, back).strip;
    for i in west..east {
        uproot(rows, i, back);
        uproot(rows, i + 1, e);
    }
}
