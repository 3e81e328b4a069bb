// Points of the sheet, and the ends of a new edge.
ghost use Rattle.std.specs.Prelude.{◌≡◌};
ghost use Rattle.chart.specs.Points.{within, on_sheet, west, told_west};

use std::fmt;
use turning::limits::MAX_COORDINATE;

// A point by its whole coordinates. Points are in order from west to east: by x, then by y.
#[derive(Clone, Copy, PartialEq, Eq, PartialOrd, Ord, Default, Debug)]
pub struct Point {
    pub x: i32,
    pub y: i32,
}

// An end of a new edge: its point, and the halfedge that it comes directly after, or none where the point is new.
#[derive(Clone, Copy, Debug)]
pub struct End {
    pub point: Point,
    pub corner: Option<i16>,
}

// Is the coordinate in range?
pub fn is_within(z: i32) -> bool
    ensures { result ≡ within z }
{
    (-MAX_COORDINATE..=MAX_COORDINATE).contains(&z)
}

impl Point {
    // Are both coordinates in range?
    pub fn is_on_sheet(self) -> bool
        ensures { result ≡ on_sheet self }
    {
        is_within(self.x) && is_within(self.y)
    }

    // Is this point west of the other: a smaller x, or an equal x and a smaller y? It stays beside `<`, as the subject's word for the order of points.
    pub fn is_west_of(self, other: Point) -> bool
        ensures { result ≡ west self other }
    {
        self < other
    }
}

impl End {
    ghost use Rattle.chart.specs.Ends.{new_end, after_corner};

    // The end of an edge at a new point.
    pub fn new(point: Point) -> End
        ensures { result ≡ new_end point }
    {
        End {
            point,
            corner: None,
        }
    }

    // The end of an edge directly after a corner that starts at the point.
    pub fn after(point: Point, corner: i16) -> End
        ensures { result ≡ after_corner point corner }
    {
        End {
            point,
            corner: Some(corner),
        }
    }
}

// Are two points told, the first west of the second?
pub fn is_told_west(p: Option<Point>, q: Option<Point>) -> bool
    ensures { result ≡ told_west p q }
{
    // A `match`, since it shows the answer where a point is missing: `zip` with `is_some_and` takes a closure and is no plainer.
    match (p, q) {
        (Some(p), Some(q)) => p.is_west_of(q),
        _ => false,
    }
}

impl fmt::Display for Point {
    fn fmt<W: fmt::Write>(&self, f: &mut fmt::Formatter<W>) -> fmt::Result {
        write!(f, "({}, {})", self.x, self.y)
    }
}
