// Questions over any turning: how many vertices, edges, loops and pieces there are, and what lies together.
// Working buffers are lent, of any length and content. Short ones are refused and left alone; others come back zero over the lengths that a search needs, whatever the answer.
#![tactic(auto)]

ghost use Rattle.std.specs.Prelude.{◌≡◌, ◌+◌, ◌*◌, ◌==◌};

use std::fmt;

pub mod counting;
pub mod loops;
pub mod pieces;

// What is counted over a turning.
#[derive(Clone, Copy, PartialEq, Eq, Debug)]
pub struct Counts {
    pub vertices: u16,
    pub edges: u16,
    pub loops: u16,
    pub pieces: u16,
}

impl Counts {
    // Is vertices + loops = edges + 2 × pieces?
    pub fn is_flat(self) -> bool
        ensures { result ≡ (self.vertices + self.loops == self.edges + 2 * self.pieces) }
    {
        self.vertices as u32 + self.loops as u32 == self.edges as u32 + 2 * self.pieces as u32
    }
}

impl fmt::Display for Counts {
    fn fmt<W: fmt::Write>(&self, f: &mut fmt::Formatter<W>) -> fmt::Result {
        write!(
            f,
            "vertices {} edges {} loops {} pieces {}",
            self.vertices, self.edges, self.loops, self.pieces
        )
    }
}
