// Question 10: there are as many rounds as vertices. Each round is walked once, from its lowest slot, and marked.
ghost use Rattle.std.specs.Prelude.{◌≡◌, ℕ, ◌<◌, ◌≤◌, true, ◌&&◌, length, replicate, if◌then◌else◌, nat_lt, slice_index};
ghost use Rattle.flat.specs.Orbits.{indicator};
ghost use Rattle.turning.specs.Limits.{slots as max_slots};
ghost use Rattle.file.specs.Places.{answered};
ghost use Rattle.file.specs.Strips.{home, low, opens, rounds, met, Turned};
ghost use Rattle.file.specs.Verdict.{q10};
ghost use Rattle.file.specs.Views.{told};

use file::fault::QuestionFault;
use file::questions::{StripFault, StripQuestion};
use file::view::Strip;
use turning::limits::MARK_BYTES;

// A walk by the strip itself: the slot that is marked next is the follower of this one.
// `number_round` of the seams walks so too. As one function over an `FnMut`, its contract would have to tell each call in the order of the walk, and both callers to fold over them: more than these lines.
fn mark_round(s: Strip<'_>, i: u16, marks: &mut [u8; MARK_BYTES])
    requires few { s.slots ≤ max_slots }
    requires turned { Turned (told s) }
    requires slot { i < s.slots }
    requires home { home (told s) i ≡ true }
    ensures { (k : ℕ) → k < s.entry.slots → slice_index marks.new k ≡ (if met (told s.entry) i s.entry.slots k then 1 else slice_index marks.old k) }
{
    let mut at = i;
    for n in 0..s.slots {
        marks[at as usize] = 1;
        at = s.follower(at);
        if at == i {
            return;
        }
    }
}

fn opens_round(s: Strip<'_>, i: u16, marks: &[u8; MARK_BYTES]) -> bool
    requires few { s.slots ≤ max_slots }
    requires turned { Turned (told s) }
    requires slot { i < s.slots }
    requires marked { slice_index marks.now i ≡ indicator (home (told s) i && nat_lt (low (told s) i) i) }
    ensures { result ≡ opens (told s.entry) i }
{
    s.is_home(i) && marks[i as usize] == 0
}

fn count_rounds(s: Strip<'_>, marks: &mut [u8; MARK_BYTES]) -> u16
    requires few { s.slots ≤ max_slots }
    requires turned { Turned (told s) }
    requires clean { marks.old ≡ replicate (length marks.old) 0 }
    ensures { result ≡ rounds (told s.entry) }
{
    let mut count = 0;
    for i in 0..s.slots {
        if opens_round(s, i, marks) {
            mark_round(s, i, marks);
            count += 1;
        }
    }
    count
}

// Question 10, of one strip.
pub fn rounds_right(
    s: Strip<'_>,
    number: u16,
    marks: &mut [u8; MARK_BYTES],
) -> Result<(), StripFault>
    requires few { s.slots ≤ max_slots }
    requires turned { Turned (told s) }
    ensures { result ≡ answered (q10 (told s.entry) number) tt }
{
    marks.fill(0);
    if count_rounds(s, marks) != s.vertices {
        return Err(QuestionFault::new(StripQuestion::Rounds, number, 0));
    }
    Ok(())
}
