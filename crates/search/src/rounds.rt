// The vertices, counted: each round is walked once.
ghost use Rattle.std.specs.Prelude.{◌≡◌, true, [], ◌∷◌, length, replicate};
ghost use Rattle.turning.specs.Limits.{max_edge};
ghost use Rattle.turning.specs.Turn.{Turn};
ghost use Rattle.turning.specs.Counts.{rounds};
ghost use Rattle.turning.proofs.Tests.{follower_fair};
ghost use Rattle.search.specs.Marks.{Spreads};

use crate::classes::{Search, count_classes};
use crate::marks::{Lent, Marks, mark};
use turning::Turning;
use turning::limits::MAX_EDGE;

// A walk about one vertex, which needs no memory of its own.
#[derive(Drop)]
struct Walk;

impl Search for Walk {
    ghost steps = { λ t. t.follower ∷ [] };

    ghost fair = { follower_fair max_edge };

    fn mark_class<T: Turning>(&mut self, t: &T, h: i16, marks: &mut Marks) {
        mark_round(t, h, marks);
    }
}

// Marks the round of h.
pub fn mark_round<T: Turning>(t: &T, h: i16, marks: &mut Marks)
    requires { (T.Turning.turn t.now).held h ≡ true }
    ensures { Spreads max_edge (T.Turning.turn t.now) ((T.Turning.turn t.now).follower ∷ []) h marks.old marks.new }
{
    let mut x = h;
    for _step in 0..2 * MAX_EDGE {
        mark(marks, x);
        x = t.follower(x);
        if x == h {
            return;
        }
    }
}

// How many vertices there are; on the loop side, how many loops.
pub fn count_rounds<T: Turning>(t: &T, marks: &mut Marks) -> u16
    ensures count { result ≡ rounds max_edge (T.Turning.turn t.now) }
    ensures zero { marks.new ≡ replicate (length marks.old) 0 }
{
    marks.fill(0);
    let lent = Lent { at: marks };
    count_classes(t, &mut Walk, lent.at)
}
