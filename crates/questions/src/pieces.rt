// Questions about pieces: a search from one name for another.
ghost use Rattle.std.specs.Prelude.{◌≡◌, List, [], ◌∷◌, length, replicate, ℤ, pos};
ghost use Rattle.turning.specs.Limits.{max_edge, marks_for, line_for};
ghost use Rattle.turning.specs.Refusals.{asked, there};
ghost use Rattle.turning.specs.declared.refusal.Refusal.TheVariants.{ShortBuffers};
ghost use Rattle.turning.specs.Turn.{Turn};
ghost use Rattle.turning.specs.Counts.{same_piece};
ghost use Rattle.search.specs.Buffers.{enough, given_back};

use search::marks::{Lent, Line, Marks};
use search::pieces::is_joined;
use turning::Turning;
use turning::limits::{LINE_NAMES, MARK_BYTES};
use turning::refusal::Refusal;

// The same, over buffers of the right lengths, which the guards clear on every way out.
fn same_piece_within<T: Turning>(
    t: &T,
    h: i16,
    k: i16,
    marks: &mut Marks,
    line: &mut Line,
) -> Result<bool, Refusal>
    ensures answer { result ≡ asked (there (T.Turning.turn t.now) (h ∷ (k ∷ []))) (same_piece max_edge (T.Turning.turn t.now) h k) }
    ensures zero { marks.new ≡ replicate (length marks.old) 0 }
    ensures empty { line.new ≡ replicate (length line.old) (pos 0) }
{
    marks.fill(0);
    let lent = Lent { at: marks };
    let waiting = Lent { at: line };
    if !t.holds(h) || !t.holds(k) {
        return Err(Refusal::NotThere);
    }
    Ok(is_joined(t, h, k, lent.at, waiting.at))
}

// Do edges that share vertices lead from h to k?
pub fn same_piece<T: Turning>(
    t: &T,
    h: i16,
    k: i16,
    marks: &mut [u8],
    line: &mut [i16],
) -> Result<bool, Refusal>
    ensures answer { result ≡ asked ((enough max_edge marks.old line.old, ShortBuffers) ∷ (there (T.Turning.turn t.now) (h ∷ (k ∷ [])))) (same_piece max_edge (T.Turning.turn t.now) h k) }
    ensures zero { marks.new ≡ given_back (enough max_edge marks.old line.old) (marks_for max_edge) 0 marks.old }
    ensures empty { line.new ≡ given_back (enough max_edge marks.old line.old) (line_for max_edge) (pos 0) line.old }
{
    let Some(marks) = marks.first_chunk_mut::<MARK_BYTES>() else {
        return Err(Refusal::ShortBuffers);
    };
    let Some(line) = line.first_chunk_mut::<LINE_NAMES>() else {
        return Err(Refusal::ShortBuffers);
    };
    same_piece_within(t, h, k, marks, line)
}
