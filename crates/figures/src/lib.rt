// Small figures, computed from the definitions. Each function's contract is one statement of specs/Figures.antt; none does anything.
#![tactic(auto)]

ghost use Rattle.figures.specs.Figures.{EdgeIs, TriangleIs, SquareIs, HalvedIs, JoinedIs, ChangedIs, TorusIs, TwistedIs, ThetaIs, GridIs};

pub fn edge_stands()
    ensures { EdgeIs }
{}

pub fn triangle_stands()
    ensures { TriangleIs }
{}

pub fn square_stands()
    ensures { SquareIs }
{}

pub fn halved_stands()
    ensures { HalvedIs }
{}

pub fn joined_stands()
    ensures { JoinedIs }
{}

pub fn changed_stands()
    ensures { ChangedIs }
{}

pub fn torus_stands()
    ensures { TorusIs }
{}

pub fn twisted_stands()
    ensures { TwistedIs }
{}

pub fn theta_stands()
    ensures { ThetaIs }
{}

pub fn grid_stands()
    ensures { GridIs }
{}
