// What the edits ask.
ghost use Rattle.std.specs.Prelude.{◌≡◌};
ghost use Rattle.turning.specs.Limits.{max_edge};
ghost use Rattle.chart.specs.Bounds.{lines};
ghost use Rattle.edits.specs.Edits.{free_point, inside};
ghost use Rattle.edits.specs.Asked.{Started};

use chart::Chart;
use chart::asks::{east_end, west_end};
use chart::point::{Point, is_told_west};

// Is the point in range and on no vertex?
pub(crate) fn is_free<C: Chart>(chart: &C, p: Point) -> bool
    ensures { result ≡ free_point max_edge (lines C.Chart chart.now) p }
{
    p.is_on_sheet() && !chart.is_vertex(p)
}

// Where the halfedge starts, if it is held.
pub(crate) fn start_of<C: Chart>(chart: &C, h: i16) -> Option<Point>
    ensures { Started (lines C.Chart chart.now) h result }
{
    chart.placed();
    chart.point(h)
}

// Is the point east of the western end of the edge, and west of the eastern end?
pub(crate) fn is_inside<C: Chart>(chart: &C, edge: u16, p: Point) -> bool
    ensures { result ≡ inside (lines C.Chart chart.now) edge p }
{
    is_told_west(west_end(chart, edge), Some(p)) && is_told_west(Some(p), east_end(chart, edge))
}
