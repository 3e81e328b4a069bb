// What a chart is asked before it is changed, for every chart alike.
ghost use Rattle.std.specs.Prelude.{◌≡◌, ◌≤◌, Bool, true, false, not, ◌&&◌, ℤ, pos, neg_ℤ, Option};
ghost use Rattle.turning.specs.Limits.{max_edge};
ghost use Rattle.chart.specs.Bounds.{lines};
ghost use Rattle.chart.specs.Changes.{numbered, western, eastern, joins_at, may_hang, may_cleave};

use crate::Chart;
use crate::point::{End, Point, is_told_west};
use turning::Turning;
use turning::limits::MAX_EDGE;

// Is it a number of an edge?
pub fn is_number(edge: u16) -> bool
    ensures { result ≡ numbered max_edge edge }
{
    (1..=MAX_EDGE).contains(&edge)
}

// Is the edge held?
pub fn holds_edge<T: Turning>(t: &T, edge: u16) -> bool
    ensures { result ≡ (T.Turning.turn t.now).held (pos edge) }
{
    edge <= MAX_EDGE && t.holds(edge as i16)
}

// Where the name starts, in range or not.
fn start_of<C: Chart>(chart: &C, name: i32) -> Option<Point>
    ensures { result ≡ C.Chart.points chart.now name }
{
    chart.placed();
    let Ok(h) = i16::try_from(name) else {
        return None;
    };
    chart.point(h)
}

// Where the edge starts, its western end.
pub fn west_end<C: Chart>(chart: &C, edge: u16) -> Option<Point>
    ensures { result ≡ C.Chart.points chart.now (pos edge) }
{
    start_of(chart, edge as i32)
}

// Where the edge ends, its eastern end.
pub fn east_end<C: Chart>(chart: &C, edge: u16) -> Option<Point>
    ensures { result ≡ C.Chart.points chart.now (neg_ℤ (pos edge)) }
{
    start_of(chart, -(edge as i32))
}

// The two ends, the western one first.
pub fn west_to_east(a: End, b: End) -> (End, End)
    ensures west { result.0 ≡ western a b }
    ensures east { result.1 ≡ eastern a b }
{
    if a.point.is_west_of(b.point) {
        (a, b)
    } else {
        (b, a)
    }
}

// Does the corner, if one is given, start at the point? Is the point on no vertex, if none is?
pub fn joins_at<C: Chart>(chart: &C, end: End) -> bool
    ensures { result ≡ joins_at max_edge (lines C.Chart chart.now) end.point end.corner }
{
    // A `match`, since the two cases ask of different things: a chain over the Option would be no plainer.
    match end.corner {
        None => !chart.is_vertex(end.point),
        Some(c) => chart.holds(c) && chart.point(c) == Some(end.point),
    }
}

// May the edge hang between the two ends, where `fits` says whether their points fit?
pub fn may_hang<C: Chart>(chart: &C, edge: u16, a: End, b: End, fits: bool) -> bool
    ensures { result ≡ may_hang max_edge (lines C.Chart chart.now) (λ _ _. fits) edge a b }
{
    is_number(edge)
        && !holds_edge(chart, edge)
        && a.point.is_on_sheet()
        && b.point.is_on_sheet()
        && a.point != b.point
        && joins_at(chart, a)
        && joins_at(chart, b)
        && fits
}

// May the edge be cleft at the point, its eastern part a new edge, where `fits` says whether the point fits?
pub fn may_cleave<C: Chart>(chart: &C, edge: u16, east: u16, at: Point, fits: bool) -> bool
    ensures { result ≡ may_cleave max_edge (lines C.Chart chart.now) (λ _ _. fits) edge east at }
{
    holds_edge(chart, edge)
        && is_number(east)
        && !holds_edge(chart, east)
        && at.is_on_sheet()
        && !chart.is_vertex(at)
        && is_told_west(west_end(chart, edge), Some(at))
        && is_told_west(Some(at), east_end(chart, edge))
        && fits
}
