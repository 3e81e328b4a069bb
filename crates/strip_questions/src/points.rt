// Question 12: the points of a strip differ. Its vertices are sorted by their points, so that equal points are neighbours.
ghost use Rattle.std.specs.Prelude.{◌≡◌, ◌≤◌, length};
ghost use Rattle.turning.specs.Limits.{slots as max_slots};
ghost use Rattle.file.specs.Places.{each, answered};
ghost use Rattle.file.specs.Questions.{point_new};
ghost use Rattle.file.specs.Verdict.{q12};
ghost use Rattle.file.specs.Views.{told};
ghost use Rattle.strip_questions.specs.Repeats.{together, lower, Listed, Lowest};

use crate::plain;
use chart::point::Point;
use file::fault::QuestionFault;
use file::questions::{StripFault, StripQuestion};
use file::view::Strip;
use turning::limits::SLOTS;

// A vertex of a strip by its point and its place, and so ordered: equal points by their places.
#[derive(Clone, Copy, PartialEq, Eq, PartialOrd, Ord, Default)]
struct Vertex {
    point: Point,
    place: u16,
}

impl Vertex {
    // Have the two vertices one point?
    fn is_with(self, other: Vertex) -> bool
        ensures { result ≡ together self other }
    {
        self.point == other.point
    }
}

// Writes the vertices of the strip in the order of their places.
fn list_vertices(s: Strip<'_>, vertices: &mut [Vertex])
    requires { length vertices.old ≡ s.vertices }
    ensures { Listed (told s.entry) vertices.new }
{
    for (k, vertex) in vertices.iter_mut().enumerate() {
        let place = k as u16;
        let point = s.point(place);
        *vertex = Vertex { point, place };
    }
}

// The lower of a place and one that may have been found.
fn lower_of(found: Option<u16>, place: u16) -> u16
    ensures { result ≡ lower found place }
{
    match found {
        Some(k) if k < place => k,
        _ => place,
    }
}

// The lowest place of a vertex that has the point of its left neighbour.
fn lowest_repeat(sorted: &[Vertex]) -> Option<u16>
    ensures { Lowest sorted.now (length sorted.now) result }
{
    let (_, later) = sorted.split_first()?;
    let mut lowest = None;
    for (left, vertex) in sorted.iter().zip(later) {
        if left.is_with(*vertex) {
            lowest = Some(lower_of(lowest, vertex.place));
        }
    }
    lowest
}

// The first vertex whose point is that of an earlier one. The memory has a place for each vertex.
fn first_repeat(s: Strip<'_>, vertices: &mut [Vertex]) -> Option<u16>
    requires { length vertices.old ≡ s.vertices }
    ensures { result ≡ each s.entry.vertices (point_new (told s.entry)) }
{
    list_vertices(s, vertices);
    vertices.sort_unstable();
    lowest_repeat(vertices)
}

// Question 12, of a strip that fits the memory.
pub fn points_new(s: Strip<'_>, number: u16) -> Result<(), StripFault>
    requires { s.vertices ≤ max_slots }
    ensures { result ≡ answered (q12 (told s.entry) number) tt }
{
    let mut memory = [Vertex::default(); SLOTS];
    match first_repeat(s, &mut memory[..s.vertices as usize]) {
        None => Ok(()),
        Some(place) => Err(QuestionFault::new(StripQuestion::NewPoints, number, place)),
    }
}

// Question 12, of one strip.
pub fn points_differ(s: Strip<'_>, number: u16) -> Result<(), StripFault>
    ensures { result ≡ answered (q12 (told s.entry) number) tt }
{
    if s.vertices as usize <= SLOTS {
        points_new(s, number)
    } else {
        plain::points_new(s, number)
    }
}
