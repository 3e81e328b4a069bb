// A join whose buffers have just the lengths that a search needs.
ghost use Rattle.std.specs.Prelude.{◌≡◌, true, [], length, replicate, ℤ, pos};
ghost use Rattle.turning.specs.Limits.{max_edge};
ghost use Rattle.turning.specs.Counts.{same_loop};
ghost use Rattle.chart.specs.Bounds.{lines, meaning};
ghost use Rattle.search.specs.Marks.{Clean};
ghost use Rattle.edits.specs.Edits.{joins, made, may_join, join_questions, Settled};

use crate::asks::start_of;
use chart::Store;
use chart::asks::{holds_edge, is_number};
use chart::point::End;
use search::marks::{Lent, Line, Marks};
use search::pieces::is_joined;
use search::walk::steps;
use turning::refusal::Refusal;
use turning::{LoopSide, Turning};

// Does next lead from c to d? Both are held.
fn is_on_loop<T: Turning>(t: &T, c: i16, d: i16) -> bool
    requires { (T.Turning.turn t.now).held c ≡ true }
    ensures { result ≡ same_loop max_edge (T.Turning.turn t.now) c d }
{
    let s = LoopSide { below: t };
    let found = steps(&s, c, d);
    let LoopSide { below: _ } = s;
    found.is_some()
}

// Are the corners on one loop, or in different pieces? The marks are lent clean.
fn may_join<T: Turning>(t: &T, c: i16, d: i16, marks: &mut Marks, line: &mut Line) -> bool
    requires clean { Clean marks.old }
    requires first { (T.Turning.turn t.now).held c ≡ true }
    requires second { (T.Turning.turn t.now).held d ≡ true }
    ensures { result ≡ may_join max_edge (T.Turning.turn t.now) c d }
{
    is_on_loop(t, c, d) || !is_joined(t, c, d, marks, line)
}

pub(crate) fn join_within<S: Store>(
    store: &mut S,
    edge: u16,
    c: i16,
    d: i16,
    marks: &mut Marks,
    line: &mut Line,
) -> Result<(), Refusal>
    ensures done { Settled (join_questions max_edge (meaning S.Store store.old) edge c d) (made (joins edge c d [] []) (lines S.Chart store.old)) (meaning S.Store store.old) result (meaning S.Store store.new) }
    ensures zero { marks.new ≡ replicate (length marks.old) 0 }
    ensures empty { line.new ≡ replicate (length line.old) (pos 0) }
{
    marks.fill(0);
    let lent = Lent { at: marks };
    let waiting = Lent { at: line };
    if !is_number(edge) {
        return Err(Refusal::NumberOutOfRange);
    }
    if holds_edge(store, edge) {
        return Err(Refusal::NumberInUse);
    }
    let Some(a) = start_of(store, c) else {
        return Err(Refusal::NotThere);
    };
    let Some(b) = start_of(store, d) else {
        return Err(Refusal::NotThere);
    };
    if a == b {
        return Err(Refusal::SameEnds);
    }
    if !may_join(store, c, d, lent.at, waiting.at) {
        return Err(Refusal::LoopsOfOnePiece);
    }
    let done = store.hang(edge, End::after(a, c), End::after(b, d));
    done.then_some(()).ok_or(Refusal::NoRoom)
}
