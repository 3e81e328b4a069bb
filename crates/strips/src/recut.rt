// A whole memory is put into strips, whatever strips it had: layouts, cuts and knits all come to this.
ghost use Rattle.std.specs.Prelude.{◌≡◌, ◌≤◌, length};
ghost use Rattle.turning.specs.Limits.{max_edge, slots};
ghost use Rattle.chart.specs.Bounds.{lines};
ghost use Rattle.halfedges.specs.View.{seen};
ghost use Rattle.halfedges.specs.Rows.{lines_in, Core};
ghost use Rattle.halfedges.specs.Homes.{HomesAlone};
ghost use Rattle.strips.specs.Borders.{slots_taken};
ghost use Rattle.strips.specs.Recuts.{InStrips};
ghost use Rattle.strips.specs.Sheets.{Stripped};

use crate::borders::{Borders, strip_of};
use chart::Chart;
use halfedges::copy::copy_chart;
use halfedges::external::plant_edge_past;
use halfedges::halfedge::{Halfedge, Rows};
use halfedges::slots::slot;
use halfedges::strips::drop_external;
use turning::limits::{MAX_EDGE, SLOTS};

// Moves every home row to the strip of its x. There are no other rows yet, so a row with a name is home.
fn renumber(rows: &mut [Halfedge], borders: &Borders)
    requires core { Core max_edge slots rows.old }
    requires alone { HomesAlone slots (seen rows.old) }
    ensures core { Core max_edge slots rows.new }
    ensures lines { lines_in (seen rows.new) ≡ lines_in (seen rows.old) }
    ensures alone { HomesAlone slots (seen rows.new) }
    ensures homes { InStrips borders.now.items (seen rows.new) }
{
    for row in rows[..SLOTS].iter_mut() {
        if row.name != 0 {
            row.strip = strip_of(borders, row.x);
        }
    }
}

// Gives every edge its external rows, by the strips of its two home rows, and goes over the records once. The borders are there for the contract alone: a ghost value in their place would be picked from the call's arguments, which would not have them.
fn plant_all(rows: &mut [Halfedge], _borders: &Borders)
    requires core { Core max_edge slots rows.old }
    requires alone { HomesAlone slots (seen rows.old) }
    requires homes { InStrips _borders.now.items (seen rows.old) }
    requires room { slots_taken _borders.now.items (lines_in (seen rows.old)) max_edge ≤ slots }
    ensures stripped { Stripped max_edge slots _borders.now.items rows.new }
    ensures lines { lines_in (seen rows.new) ≡ lines_in (seen rows.old) }
{
    let mut known = 0;
    for e in 1..=MAX_EDGE {
        if slot(rows, e as i16) != 0 {
            known = plant_edge_past(rows, e, known);
        }
    }
}

// Puts what the memory holds into the strips of the borders, if all of it finds its slots there.
pub(crate) fn recut(rows: &mut Rows, borders: &Borders)
    requires core { Core max_edge slots rows.old.at.now }
    requires room { slots_taken borders.now.items (lines_in (seen rows.old.at.now)) max_edge ≤ slots }
    ensures stripped { Stripped max_edge slots borders.now.items rows.new.at.now }
    ensures lines { lines_in (seen rows.new.at.now) ≡ lines_in (seen rows.old.at.now) }
    ensures length { length rows.new.at.now ≡ length rows.old.at.now }
{
    drop_external(rows.at);
    renumber(rows.at, borders);
    plant_all(rows.at, borders);
}

// Fills the memory with a whole chart, and nothing else, in the strips of the borders.
pub(crate) fn fill<C: Chart>(rows: &mut Rows, chart: &C, borders: &Borders)
    requires long { slots ≤ length rows.old.at.now }
    requires room { slots_taken borders.now.items (lines C.Chart chart.now) max_edge ≤ slots }
    ensures stripped { Stripped max_edge slots borders.now.items rows.new.at.now }
    ensures lines { lines_in (seen rows.new.at.now) ≡ lines C.Chart chart.now }
    ensures length { length rows.new.at.now ≡ length rows.old.at.now }
{
    copy_chart(rows, chart);
    recut(rows, borders);
}
