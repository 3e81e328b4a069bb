// Questions about loops: walks on the loop side.
ghost use Rattle.std.specs.Prelude.{◌≡◌, List, [], ◌∷◌};
ghost use Rattle.turning.specs.Limits.{max_edge};
ghost use Rattle.turning.specs.Refusals.{asked, there};
ghost use Rattle.turning.specs.Turn.{Turn};
ghost use Rattle.turning.specs.Counts.{same_loop, loop_length};

use search::walk::{round_length, steps};
use turning::refusal::Refusal;
use turning::{LoopSide, Turning};

// Does next lead from h to k?
pub fn same_loop<T: Turning>(t: &T, h: i16, k: i16) -> Result<bool, Refusal>
    ensures { result ≡ asked (there (T.Turning.turn t.now) (h ∷ (k ∷ []))) (same_loop max_edge (T.Turning.turn t.now) h k) }
{
    if !t.holds(h) || !t.holds(k) {
        return Err(Refusal::NotThere);
    }
    let s = LoopSide { below: t };
    let found = steps(&s, h, k);
    let LoopSide { below: _ } = s;
    Ok(found.is_some())
}

// How many halfedges lie on the loop of h?
pub fn loop_length<T: Turning>(t: &T, h: i16) -> Result<u16, Refusal>
    ensures { result ≡ asked (there (T.Turning.turn t.now) (h ∷ [])) (loop_length max_edge (T.Turning.turn t.now) h) }
{
    if !t.holds(h) {
        return Err(Refusal::NotThere);
    }
    let s = LoopSide { below: t };
    let length = round_length(&s, h);
    let LoopSide { below: _ } = s;
    Ok(length)
}
