// How many slots a chart takes in the strips of borders.
ghost use Rattle.std.specs.Prelude.{◌≡◌, ◌^◌, ◌≤◌};
ghost use Rattle.turning.specs.Limits.{max_edge};
ghost use Rattle.chart.specs.Bounds.{lines};
ghost use Rattle.strips.specs.Borders.{strip_of, x_of, slots_of, slots_taken};

use crate::borders::{Borders, strip_of};
use chart::Chart;
use chart::asks::{east_end, holds_edge, west_end};
use chart::point::Point;
use turning::limits::MAX_EDGE;

// The strip of a point that is told; where none is, that of x 0.
pub fn strip_at(borders: &Borders, told: Option<Point>) -> u16
    ensures { result ≡ strip_of borders.now.items (x_of told) }
{
    strip_of(borders, told.map_or(0, |p| p.x))
}

// How many slots an edge of the chart takes: two in each strip that it runs through. A strip's number has 16 bits, so they are few enough to add up.
fn slots_of<C: Chart>(chart: &C, borders: &Borders, edge: u16) -> u32
    ensures taken { result ≡ slots_of borders.now.items (lines C.Chart chart.now) edge }
    ensures few { result ≤ 2 ^ 17 }
{
    if !holds_edge(chart, edge) {
        return 0;
    }
    let first = strip_at(borders, west_end(chart, edge));
    let last = strip_at(borders, east_end(chart, edge));
    2 * (first.abs_diff(last) as u32 + 1)
}

// How many slots all edges of the chart take.
pub(crate) fn slots_needed<C: Chart>(chart: &C, borders: &Borders) -> u32
    ensures { result ≡ slots_taken borders.now.items (lines C.Chart chart.now) max_edge }
{
    (1..MAX_EDGE + 1).map(|e| slots_of(chart, borders, e)).sum()
}
