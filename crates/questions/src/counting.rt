// Counts, afresh from the links.
ghost use Rattle.std.specs.Prelude.{◌≡◌, List, [], ◌∷◌, length, replicate, ℤ, pos};
ghost use Rattle.turning.specs.Limits.{max_edge, marks_for, line_for};
ghost use Rattle.turning.specs.Refusals.{asked};
ghost use Rattle.turning.specs.declared.refusal.Refusal.TheVariants.{ShortBuffers};
ghost use Rattle.turning.specs.Turn.{Turn};
ghost use Rattle.turning.specs.Counts.{rounds};
ghost use Rattle.search.specs.Buffers.{enough_marks, enough, given_back};
ghost use Rattle.questions.specs.Counting.{counted};

use crate::Counts;
use search::marks::{Line, Marks};
use search::pieces::count_pieces;
use search::rounds::count_rounds;
use turning::edges::count_edges;
use turning::limits::{LINE_NAMES, MARK_BYTES};
use turning::refusal::Refusal;
use turning::{LoopSide, Turning};

// How many rounds there are: the vertices, and on the loop side the loops.
pub fn rounds_of<T: Turning>(t: &T, marks: &mut [u8]) -> Result<u16, Refusal>
    ensures answer { result ≡ asked ((enough_marks max_edge marks.old, ShortBuffers) ∷ []) (rounds max_edge (T.Turning.turn t.now)) }
    ensures zero { marks.new ≡ given_back (enough_marks max_edge marks.old) (marks_for max_edge) 0 marks.old }
{
    let Some(part) = marks.first_chunk_mut::<MARK_BYTES>() else {
        return Err(Refusal::ShortBuffers);
    };
    Ok(count_rounds(t, part))
}

// The rounds of the loop side of the loop side, read back as those of t: the turning goes in by value and comes out again.
pub fn rounds_turned_twice<T: Turning>(t: T, marks: &mut [u8]) -> (T, Result<u16, Refusal>)
    ensures same { result.0 ≡ t }
    ensures answer { result.1 ≡ asked ((enough_marks max_edge marks.old, ShortBuffers) ∷ []) (rounds max_edge (T.Turning.turn t)) }
    ensures zero { marks.new ≡ given_back (enough_marks max_edge marks.old) (marks_for max_edge) 0 marks.old }
{
    let turned = LoopSide {
        below: LoopSide { below: t },
    };
    let answer = rounds_of(&turned, marks);
    let LoopSide { below } = turned;
    let LoopSide { below: t } = below;
    (t, answer)
}

// The counts, over buffers of the right lengths.
fn count_all<T: Turning>(t: &T, marks: &mut Marks, line: &mut Line) -> Counts
    ensures count { result ≡ counted max_edge (T.Turning.turn t.now) }
    ensures zero { marks.new ≡ replicate (length marks.old) 0 }
    ensures empty { line.new ≡ replicate (length line.old) (pos 0) }
{
    let vertices = count_rounds(t, marks);
    let side = LoopSide { below: t };
    let loops = count_rounds(&side, marks);
    let LoopSide { below: _ } = side;
    let edges = count_edges(t);
    let pieces = count_pieces(t, marks, line);
    Counts {
        vertices,
        edges,
        loops,
        pieces,
    }
}

// The four counts.
pub fn counts<T: Turning>(t: &T, marks: &mut [u8], line: &mut [i16]) -> Result<Counts, Refusal>
    ensures answer { result ≡ asked ((enough max_edge marks.old line.old, ShortBuffers) ∷ []) (counted max_edge (T.Turning.turn t.now)) }
    ensures zero { marks.new ≡ given_back (enough max_edge marks.old line.old) (marks_for max_edge) 0 marks.old }
    ensures empty { line.new ≡ given_back (enough max_edge marks.old line.old) (line_for max_edge) (pos 0) line.old }
{
    let Some(marks) = marks.first_chunk_mut::<MARK_BYTES>() else {
        return Err(Refusal::ShortBuffers);
    };
    let Some(line) = line.first_chunk_mut::<LINE_NAMES>() else {
        return Err(Refusal::ShortBuffers);
    };
    Ok(count_all(t, marks, line))
}
