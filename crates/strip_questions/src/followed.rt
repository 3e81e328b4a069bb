// Question 9: each home slot is the follower of exactly one slot, and each external slot of none.
ghost use Rattle.std.specs.Prelude.{◌≡◌, ℕ, ◌<◌, ◌≤◌, true, length, replicate, slice_index, slice_set};
ghost use Rattle.turning.specs.Limits.{slots as max_slots};
ghost use Rattle.file.specs.Places.{answered};
ghost use Rattle.file.specs.Questions.{follower_good, followed_right};
ghost use Rattle.file.specs.Strips.{followed};
ghost use Rattle.file.specs.Verdict.{q9};
ghost use Rattle.file.specs.Views.{told};
ghost use Rattle.strip_questions.specs.Counts.{capped, one_more};

use file::asking::ask_each;
use file::questions::{StripFault, StripQuestion};
use file::view::{NONE, Strip};
use turning::limits::MARK_BYTES;

fn add_mark(marks: &mut [u8; MARK_BYTES], at: usize)
    requires { at < length marks.old }
    ensures { marks.new ≡ slice_set marks.old at (one_more (slice_index marks.old at)) }
{
    let count = marks[at];
    let more = if count < 2 { count + 1 } else { count };
    marks[at] = more;
}

fn mark_followed(s: Strip<'_>, marks: &mut [u8; MARK_BYTES])
    requires few { s.slots ≤ max_slots }
    requires followers { (k : ℕ) → k < s.slots → follower_good (told s) k ≡ true }
    requires clean { marks.old ≡ replicate (length marks.old) 0 }
    ensures { (i : ℕ) → i < s.entry.slots → slice_index marks.new i ≡ capped (followed (told s.entry) i) }
{
    for k in 0..s.slots {
        let follower = s.follower(k);
        if follower != NONE {
            add_mark(marks, follower as usize);
        }
    }
}

// Is slot i, which was found to follow as often as its mark tells, followed as often as it should?
fn is_followed_right(s: Strip<'_>, i: u16, mark: u8) -> bool
    requires slot { i < s.slots }
    requires counted { mark ≡ capped (followed (told s) i) }
    ensures { result ≡ followed_right (told s.entry) i }
{
    mark == u8::from(s.is_home(i))
}

fn find_misfollowed(s: Strip<'_>, number: u16, marks: &[u8; MARK_BYTES]) -> Result<(), StripFault>
    requires few { s.slots ≤ max_slots }
    requires counted { (i : ℕ) → i < s.slots → slice_index marks.now i ≡ capped (followed (told s) i) }
    ensures { result ≡ answered (q9 (told s.entry) number) tt }
{
    ask_each(StripQuestion::Followed, number, s.slots, |i| {
        is_followed_right(s, i, marks[i as usize])
    })
}

// Question 9, of one strip.
pub fn slots_followed(
    s: Strip<'_>,
    number: u16,
    marks: &mut [u8; MARK_BYTES],
) -> Result<(), StripFault>
    requires few { s.slots ≤ max_slots }
    requires followers { (k : ℕ) → k < s.slots → follower_good (told s) k ≡ true }
    ensures { result ≡ answered (q9 (told s.entry) number) tt }
{
    marks.fill(0);
    mark_followed(s, marks);
    find_misfollowed(s, number, marks)
}
