// Classes of names, counted: each is searched once, from the first of its names in number order.
ghost use Rattle.std.specs.Prelude.{◌≡◌, true, false, List, ℤ};
ghost use Rattle.flat.specs.Orbits.{orbits};
ghost use Rattle.flat.specs.Whole.{equal};
ghost use Rattle.flat.proofs.Counts.{Fair};
ghost use Rattle.flat.proofs.Whole.{equal_is};
ghost use Rattle.turning.specs.Limits.{max_edge};
ghost use Rattle.turning.specs.Turn.{Turn, Lawful};
ghost use Rattle.turning.specs.Counts.{holding};
ghost use Rattle.search.specs.Marks.{Within, marked, Clean, Closed, Spreads, Visited};

use crate::marks::{Marks, is_marked};
use turning::Turning;
use turning::limits::MAX_EDGE;

// How a class is searched, with what memory the search needs of its own: its steps lead from each name of the class to the others.
pub(crate) trait Search {
    ghost steps: { Turn → List (ℤ → ℤ) };

    ghost fair: { (t : Turn) → Lawful max_edge t → Fair equal equal_is (steps t) (holding max_edge t) };

    // Marks all that the steps lead to from h.
    fn mark_class<T: Turning>(&mut self, t: &T, h: i16, marks: &mut Marks)
        requires held { (T.Turning.turn t.now).held h ≡ true }
        requires unmarked { marked max_edge marks.old h ≡ false }
        requires closed { Closed max_edge (T.Turning.turn t.now) (steps (T.Turning.turn t.now)) marks.old }
        ensures { Spreads max_edge (T.Turning.turn t.now) (steps (T.Turning.turn t.now)) h marks.old marks.new };
}

// One for a new h, whose class is marked then; otherwise nothing.
fn visit<T: Turning, S: Search>(t: &T, search: &mut S, h: i16, marks: &mut Marks) -> u16
    requires within { Within max_edge h }
    requires closed { Closed max_edge (T.Turning.turn t.now) (S.Search.steps (T.Turning.turn t.now)) marks.old }
    ensures { Visited max_edge (T.Turning.turn t.now) (S.Search.steps (T.Turning.turn t.now)) h marks.old marks.new result }
{
    if !t.holds(h) || is_marked(marks, h) {
        return 0;
    }
    search.mark_class(t, h, marks);
    1
}

// How many classes there are. The marks are lent clean.
pub(crate) fn count_classes<T: Turning, S: Search>(t: &T, search: &mut S, marks: &mut Marks) -> u16
    requires { Clean marks.old }
    ensures { result ≡ orbits equal (S.Search.steps (T.Turning.turn t.now)) (holding max_edge (T.Turning.turn t.now)) }
{
    let mut count = 0;
    for e in 1..=MAX_EDGE {
        let h = e as i16;
        count += visit(t, search, h, marks);
        count += visit(t, search, -h, marks);
    }
    count
}
