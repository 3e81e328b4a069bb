// The edges, counted by their numbers.
ghost use Rattle.std.specs.Prelude.{◌≡◌};
ghost use Rattle.turning.specs.Limits.{max_edge};
ghost use Rattle.turning.specs.Counts.{edges};

use crate::Turning;
use crate::limits::MAX_EDGE;

// How many edges there are.
pub fn count_edges<T: Turning>(t: &T) -> u16
    ensures { result ≡ edges max_edge (T.Turning.turn t.now) }
{
    // A range without its last number, since std's lemmas on chains begin with such a one.
    (1..MAX_EDGE + 1).filter(|&e| t.holds(e as i16)).count() as u16
}
