// The changes of a stripped sheet's rows, each as a whole: an edge comes or goes with its slots in every strip that it runs through.
ghost use Rattle.std.specs.Prelude.{◌≡◌, suc, ◌+◌, ◌*◌, ◌≤◌, true, pos};
ghost use Rattle.turning.specs.Limits.{max_edge, slots};
ghost use Rattle.chart.specs.Changes.{lifted, cleft};
ghost use Rattle.laws.specs.Rotations.{Ends, Cuts};
ghost use Rattle.halfedges.specs.View.{seen};
ghost use Rattle.halfedges.specs.Rows.{turn_of, lines_in, hung_between};
ghost use Rattle.strips.specs.Borders.{strip_of, apart, slots_taken};
ghost use Rattle.strips.specs.Sheets.{Stripped};

use crate::borders::{Borders, strip_of};
use chart::point::{End, Point};
use halfedges::edges::{Span, cleave_edge, hang_edge, lift_edge};
use halfedges::external::{plant_edge, uproot_edge};
use halfedges::halfedge::Rows;

// Brings an edge in, between two ends that stand west to east.
pub(crate) fn hang_through(rows: &mut Rows, borders: &Borders, edge: u16, start: End, end: End)
    requires stripped { Stripped max_edge slots borders.now.items rows.old.at.now }
    requires ends { Ends max_edge (lines_in (seen rows.old.at.now)) edge start.point end.point start.corner end.corner }
    requires room { slots_taken borders.now.items (lines_in (seen rows.old.at.now)) max_edge + 2 * suc (apart (strip_of borders.now.items start.point.x) (strip_of borders.now.items end.point.x)) ≤ slots }
    ensures stripped { Stripped max_edge slots borders.now.items rows.new.at.now }
    ensures lines { lines_in (seen rows.new.at.now) ≡ hung_between edge start end (lines_in (seen rows.old.at.now)) }
{
    let west = strip_of(borders, start.point.x);
    let east = strip_of(borders, end.point.x);
    hang_edge(rows, edge, start, end, Span { west, east });
    plant_edge(rows.at, edge);
}

// Takes an edge out. The borders are there for the contract alone: a ghost value in their place would be picked from the call's arguments, which would not have them.
pub(crate) fn lift_through(rows: &mut Rows, _borders: &Borders, edge: u16)
    requires stripped { Stripped max_edge slots _borders.now.items rows.old.at.now }
    requires here { (turn_of (seen rows.old.at.now)).held (pos edge) ≡ true }
    ensures stripped { Stripped max_edge slots _borders.now.items rows.new.at.now }
    ensures lines { lines_in (seen rows.new.at.now) ≡ lifted edge (lines_in (seen rows.old.at.now)) }
{
    uproot_edge(rows.at, edge);
    lift_edge(rows, edge);
}

// Splits an edge that ends at `to`: the western part keeps its number, the eastern part has the new one.
pub(crate) fn cleave_through(
    rows: &mut Rows,
    borders: &Borders,
    edge: u16,
    east: u16,
    at: Point,
    to: Point,
)
    requires stripped { Stripped max_edge slots borders.now.items rows.old.at.now }
    requires cuts { Cuts max_edge (lines_in (seen rows.old.at.now)) edge east at to }
    requires room { slots_taken borders.now.items (lines_in (seen rows.old.at.now)) max_edge + 2 ≤ slots }
    ensures stripped { Stripped max_edge slots borders.now.items rows.new.at.now }
    ensures lines { lines_in (seen rows.new.at.now) ≡ cleft edge east at (lines_in (seen rows.old.at.now)) }
{
    let middle = strip_of(borders, at.x);
    let last = strip_of(borders, to.x);
    uproot_edge(rows.at, edge);
    cleave_edge(
        rows,
        edge,
        east,
        at,
        to,
        Span {
            west: middle,
            east: last,
        },
    );
    plant_edge(rows.at, edge);
    plant_edge(rows.at, east);
}
