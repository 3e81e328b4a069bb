// Question 15: no earlier home slot has the same name.
ghost use Rattle.std.specs.Prelude.{◌≡◌, ◌+◌, ◌<◌, true, length, replicate, Ok};
ghost use Rattle.turning.specs.Limits.{max_edge};
ghost use Rattle.file.specs.Places.{answered, at, each};
ghost use Rattle.file.specs.Verdict.{seam_fault, q15};
ghost use Rattle.file.specs.Layout.{strip};
ghost use Rattle.file.specs.Questions.{name_good, home_new};
ghost use Rattle.file.specs.Views.{told};
ghost use Rattle.file.specs.declared.questions.SeamQuestion.TheVariants.{Homes};
ghost use Rattle.seam_questions.specs.Homes.{HomesMarked};

use file::fault::QuestionFault;
use file::parts::JudgedFile;
use file::questions::{SeamFault, SeamQuestion};
use file::view::Strip;
use strip_questions::place::place_in;
use turning::limits::MARK_BYTES;

fn claim_home(
    judged: JudgedFile<'_>,
    j: u16,
    s: Strip<'_>,
    i: u16,
    marks: &mut [u8; MARK_BYTES],
) -> bool
    requires strip { told s ≡ strip judged.file.bytes.now j }
    requires slot { i < s.slots }
    requires named { name_good max_edge (told s) i ≡ true }
    requires marked { HomesMarked judged.file.bytes.now j i marks.old }
    ensures answer { result ≡ home_new (strip judged.entry.file.bytes.now) j i }
    ensures held { result ≡ true → HomesMarked judged.entry.file.bytes.now j (i + 1) marks.new }
{
    if !s.is_home(i) {
        return true;
    }
    let place = place_in(s, i);
    if marks[place] != 0 {
        return false;
    }
    marks[place] = 1;
    true
}

// A loop, and not `ask_each`: each slot is marked as it is asked, so that the next one is asked of other marks. What an `FnMut` answers would have to be told call by call, as the loop does.
fn all_claimed(
    judged: JudgedFile<'_>,
    j: u16,
    marks: &mut [u8; MARK_BYTES],
) -> Result<(), SeamFault>
    requires strip { j < judged.file.count }
    requires marked { HomesMarked judged.file.bytes.now j 0 marks.old }
    ensures answer { result ≡ answered (at (seam_fault Homes (j + 1)) (each (strip judged.entry.file.bytes.now j).slots (home_new (strip judged.entry.file.bytes.now) j))) tt }
    ensures held { result ≡ Ok tt → HomesMarked judged.entry.file.bytes.now (j + 1) 0 marks.new }
{
    let s = judged.file.strip(j);
    for i in 0..s.slots {
        if !claim_home(judged, j, s, i, marks) {
            return Err(QuestionFault::new(SeamQuestion::Homes, j + 1, i));
        }
    }
    Ok(())
}

fn claim_all(judged: JudgedFile<'_>, marks: &mut [u8; MARK_BYTES]) -> Result<(), SeamFault>
    requires clean { marks.old ≡ replicate (length marks.old) 0 }
    ensures { result ≡ answered (q15 judged.entry.file.bytes.now) tt }
{
    for j in 0..judged.file.count {
        all_claimed(judged, j, marks)?;
    }
    Ok(())
}

// Question 15, of all strips.
pub fn ask_homes(judged: JudgedFile<'_>, marks: &mut [u8; MARK_BYTES]) -> Result<(), SeamFault>
    ensures { result ≡ answered (q15 judged.entry.file.bytes.now) tt }
{
    marks.fill(0);
    claim_all(judged, marks)
}
