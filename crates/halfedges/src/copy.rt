// A whole chart comes into the memory, whatever the memory held: two slots for each edge, all in one strip.
ghost use Rattle.std.specs.Prelude.{◌≡◌, ℕ, ◌+◌, ◌*◌, ◌≤◌, false, ◌&&◌, length, ℤ, pos, neg_ℤ, ◌≤ℤ◌, ◌==◌, ◌≢◌};
ghost use Rattle.flat.specs.Orbits.{indicator};
ghost use Rattle.turning.specs.Limits.{max_edge, slots};
ghost use Rattle.chart.specs.Bounds.{lines};
ghost use Rattle.halfedges.specs.View.{none, seen};
ghost use Rattle.halfedges.specs.Rows.{lines_in, home, settled, used, slot_count, edge_count, Blank, Core};
ghost use Rattle.halfedges.specs.Copies.{row_for, copied_edge, Copied};

use crate::halfedge::{Halfedge, Rows};
use crate::slots::{free_all, note, write};
use chart::Chart;
use chart::asks::holds_edge;
use turning::limits::MAX_EDGE;

// Writes the row of one name at a slot, and notes the slot.
fn copy_name<C: Chart>(rows: &mut [Halfedge], slot: usize, chart: &C, h: i16)
    requires long { slots ≤ length rows.old }
    requires low { 1 ≤ slot }
    requires high { slot ≤ slots }
    requires least { neg_ℤ (pos max_edge) ≤ℤ h }
    requires most { h ≤ℤ pos max_edge }
    ensures { seen rows.new ≡ settled slot h (row_for (lines C.Chart chart.now) h) (seen rows.old) }
{
    let at = chart.point(h).unwrap_or_default();
    let row = Halfedge {
        strip: 1,
        name: h,
        follower: chart.follower(h),
        predecessor: chart.predecessor(h),
        x: at.x,
        y: at.y,
        index: [0; 3],
    };
    write(rows, slot, row);
    note(rows, h, slot as u16);
}

// Writes the rows of both names of an edge at the two slots after the filled ones.
fn copy_edge<C: Chart>(rows: &mut [Halfedge], filled: usize, chart: &C, edge: u16)
    requires long { slots ≤ length rows.old }
    requires room { filled + 2 ≤ slots }
    requires number { edge ≤ max_edge }
    ensures { seen rows.new ≡ copied_edge (lines C.Chart chart.now) edge filled (seen rows.old) }
{
    copy_name(rows, filled + 1, chart, edge as i16);
    copy_name(rows, filled + 2, chart, -(edge as i16));
}

// Writes the rows of all edges into a memory where nothing stands.
fn copy_edges<C: Chart>(rows: &mut [Halfedge], chart: &C)
    requires blank { Blank rows.old }
    requires long { slots ≤ length rows.old }
    requires room { 2 * edge_count max_edge (C.Turning.turn chart.now) ≤ slots }
    ensures { Copied (lines C.Chart chart.now) (C.Turning.turn chart.now).held (2 * edge_count max_edge (C.Turning.turn chart.now)) (seen rows.new) }
{
    let mut filled = 0;
    for e in 1..=MAX_EDGE {
        if holds_edge(chart, e) {
            copy_edge(rows, filled, chart, e);
            filled += 2;
        }
    }
}

// Writes the whole chart, and nothing else.
pub fn copy_chart<C: Chart>(rows: &mut Rows, chart: &C)
    requires long { slots ≤ length rows.old.at.now }
    requires room { 2 * edge_count max_edge (C.Turning.turn chart.now) ≤ slots }
    ensures lines { lines_in (seen rows.new.at.now) ≡ lines C.Chart chart.now }
    ensures core { Core max_edge slots rows.new.at.now }
    ensures used { used slots (seen rows.new.at.now) ≡ 2 * edge_count max_edge (C.Turning.turn chart.now) }
    ensures homes { (s : ℕ) → home ((seen rows.new.at.now).row s) ≡ false → (seen rows.new.at.now).row s ≡ none }
    ensures each { (i : ℕ) (h : ℤ) → (h ≢ pos 0) → slot_count slots (seen rows.new.at.now) i h ≡ indicator ((C.Turning.turn chart.now).held h && i == 1) }
    ensures length { length rows.new.at.now ≡ length rows.old.at.now }
{
    chart.placed();
    free_all(rows.at);
    copy_edges(rows.at, chart);
}
