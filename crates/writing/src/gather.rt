// What one strip has: the names of its slots, and its vertices.
ghost use Rattle.std.specs.Prelude.{◌≡◌, ◌≤◌, [], map, length, pos};
ghost use Rattle.turning.specs.Limits.{max_edge, line_for};
ghost use Rattle.chart.specs.Bounds.{lines};
ghost use Rattle.search.specs.Marks.{Clean};
ghost use Rattle.strips.specs.Borders.{runs_through};
ghost use Rattle.writing.specs.Written.{names_in, points_in, starts_in, start_of};
ghost use Rattle.writing.specs.Gathers.{Gathered, size_of};

use arrayvec::ArrayVec;
use chart::Chart;
use chart::asks::{east_end, holds_edge, west_end};
use file::view::Sizes;
use search::marks::{Marks, is_marked};
use search::rounds::mark_round;
use strips::borders::Borders;
use strips::taken::strip_at;
use turning::Turning;
use turning::limits::{LINE_NAMES, MARK_BYTES, MAX_EDGE};

// Names of a strip, at most all that there are. They lie in the value itself: nothing is allocated.
pub(crate) type Names = ArrayVec<i16, LINE_NAMES>;

// Does the edge run through the strip? Its strips are named as where its slots are counted: one function for both would answer two strips or none, which each would take apart again.
fn runs_through<C: Chart>(chart: &C, borders: &Borders, strip: u16, edge: u16) -> bool
    ensures { result ≡ runs_through borders.now.items (lines C.Chart chart.now) strip (pos edge) }
{
    if !holds_edge(chart, edge) {
        return false;
    }
    let first = strip_at(borders, west_end(chart, edge));
    let last = strip_at(borders, east_end(chart, edge));
    first <= strip && strip <= last
}

// Does the halfedge start in the strip?
pub(crate) fn starts_in<C: Chart>(chart: &C, borders: &Borders, strip: u16, h: i16) -> bool
    ensures { result ≡ starts_in borders.now.items (lines C.Chart chart.now) strip h }
{
    strip_at(borders, chart.point(h)) == strip
}

// Puts the names of the strip into an empty list.
fn collect_names<C: Chart>(chart: &C, borders: &Borders, strip: u16, names: &mut Names)
    requires { names.old.items ≡ [] }
    ensures { names.new.items ≡ names_in max_edge borders.now.items (lines C.Chart chart.now) strip }
{
    for e in 1..=MAX_EDGE {
        if runs_through(chart, borders, strip, e) {
            let h = e as i16;
            names.push(h);
            names.push(-h);
        }
    }
}

// Puts the first name of each vertex of the strip into an empty list. The marks are lent clean.
fn collect_firsts<C: Chart>(
    chart: &C,
    borders: &Borders,
    strip: u16,
    names: &[i16],
    marks: &mut Marks,
    firsts: &mut Names,
)
    requires names { names.now ≡ names_in max_edge borders.now.items (lines C.Chart chart.now) strip }
    requires few { length names.now ≤ line_for max_edge }
    requires marks { Clean marks.old }
    requires empty { firsts.old.items ≡ [] }
    ensures { map (start_of (lines C.Chart chart.now)) firsts.new.items ≡ points_in max_edge borders.now.items (lines C.Chart chart.now) strip }
{
    chart.placed();
    for &h in names {
        if starts_in(chart, borders, strip, h) && !is_marked(marks, h) {
            mark_round(chart, h, marks);
            firsts.push(h);
        }
    }
}

// Puts the names and the vertices of the strip into two empty lists.
pub(crate) fn gather<C: Chart>(
    chart: &C,
    borders: &Borders,
    strip: u16,
    names: &mut Names,
    firsts: &mut Names,
)
    requires names { names.old.items ≡ [] }
    requires firsts { firsts.old.items ≡ [] }
    ensures { Gathered max_edge borders.now.items (lines C.Chart chart.now) strip names.new.items firsts.new.items }
{
    let mut marks = [0; MARK_BYTES];
    collect_names(chart, borders, strip, names);
    collect_firsts(chart, borders, strip, names.as_slice(), &mut marks, firsts);
}

// How many vertices and slots the strip has.
pub(crate) fn measure<C: Chart>(chart: &C, borders: &Borders, strip: u16) -> Sizes
    ensures { result ≡ size_of max_edge borders.now.items (lines C.Chart chart.now) strip }
{
    let mut names = Names::new();
    let mut firsts = Names::new();
    gather(chart, borders, strip, &mut names, &mut firsts);
    Sizes {
        vertices: firsts.len() as u16,
        slots: names.len() as u16,
    }
}
