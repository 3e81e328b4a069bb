// Charts: turnings that tell points. Stores: charts that can be changed.
#![tactic(auto)]

ghost use Rattle.std.specs.Prelude.{◌≡◌, ◌≤◌, Bool, true, false, ℤ, Option};
ghost use Rattle.turning.specs.Limits.{max_edge};
ghost use Rattle.chart.specs.declared.point.Point.{Point};
ghost use Rattle.chart.specs.declared.point.End.{End};
ghost use Rattle.chart.specs.Linework.{Placed};
ghost use Rattle.chart.specs.Changes.{starts_at, vertex_at};
ghost use Rattle.chart.specs.Bounds.{lines, meaning};
ghost use Rattle.chart.specs.Stores.{Frame, Hangs, Lifts, Cleaves};

use point::{End, Point};
use turning::Turning;
use turning::limits::MAX_EDGE;

pub mod asks;
pub mod point;

// A turning that also tells where each held name starts, and of another name nothing.
pub trait Chart: Turning {
    ghost points: { Self → ℤ → Option Point };

    fn point(&self, h: i16) -> Option<Point>
        ensures { result ≡ points self.now h };

    // The law over both meanings, as a call that does nothing.
    fn placed(&self)
        ensures { Placed max_edge (Self.Turning.turn self.now) (points self.now) };

    // Does some vertex stand at the point? Every name is asked; a chart may know better.
    fn is_vertex(&self, p: Point) -> bool
        ensures { result ≡ vertex_at max_edge (lines Self.Chart self.now) p }
    {
        self.placed();
        // A range without its last number, since std's lemmas on chains begin with such a one.
        (1..MAX_EDGE + 1).any(
            |e: u16| -> bool
                requires { e ≤ max_edge }
                ensures { result ≡ starts_at (lines Self.Chart self.entry.now) p e }
            {
                let h = e as i16;
                self.point(h) == Some(p) || self.point(-h) == Some(p)
            },
        )
    }
}

// A chart that can be changed. A no leaves the whole meaning, a yes the frame; after it, which pairs fit is the store's own.
pub trait Store: Chart {
    ghost frame: { Self → Frame };

    ghost fits: { Self → Point → Point → Bool };

    fn hang(&mut self, edge: u16, a: End, b: End) -> bool
        ensures { Hangs max_edge (meaning Self.Store self.old) edge a b result (meaning Self.Store self.new) };

    fn lift(&mut self, edge: u16) -> bool
        ensures { Lifts (meaning Self.Store self.old) edge result (meaning Self.Store self.new) };

    fn cleave(&mut self, edge: u16, east: u16, at: Point) -> bool
        ensures { Cleaves max_edge (meaning Self.Store self.old) edge east at result (meaning Self.Store self.new) };
}
