// Questions 13 and 14: external names stand in the neighbour strip, home names do not.
ghost use Rattle.std.specs.Prelude.{◌≡◌, ℕ, ◌+◌, ◌<◌, true, length, replicate, ℤ, if◌then◌else◌, Some, slice_index};
ghost use Rattle.turning.specs.Limits.{max_edge, max_strips};
ghost use Rattle.file.specs.Layout.{strips, strip};
ghost use Rattle.file.specs.Places.{answered, at, each};
ghost use Rattle.file.specs.Questions.{named, name_good, beyond};
ghost use Rattle.file.specs.Verdict.{seam_fault, over_strips, q13, q14};
ghost use Rattle.file.specs.Views.{told};
ghost use Rattle.search.specs.Marks.{place as mark_at};
ghost use Rattle.seam_questions.specs.Sides.{neighbour_names, Marked, stands_right, asked_of};

use crate::sides::{east_of, is_on_side, west_of};
use file::asking::ask_each;
use file::parts::JudgedFile;
use file::questions::{SeamFault, SeamQuestion};
use file::view::Strip;
use strip_questions::place::{mark_names, place_in};
use turning::limits::MARK_BYTES;

fn mark_neighbour(
    judged: JudgedFile<'_>,
    neighbour: Option<u16>,
    side: bool,
    marks: &mut [u8; MARK_BYTES],
)
    requires strip { (k : ℕ) → neighbour ≡ Some k → k < judged.file.count }
    ensures { (z : ℤ) → named max_edge z ≡ true → slice_index marks.new (mark_at max_edge z) ≡ (if neighbour_names side (strip judged.entry.file.bytes.now) neighbour z then 1 else slice_index marks.old (mark_at max_edge z)) }
{
    if let Some(k) = neighbour {
        mark_names(judged.file.strip(k), |name| is_on_side(side, name), marks);
    }
}

fn mark_beyond(judged: JudgedFile<'_>, j: u16, marks: &mut [u8; MARK_BYTES])
    requires strip { j < judged.file.count }
    requires clean { marks.old ≡ replicate (length marks.old) 0 }
    ensures { Marked judged.entry.file.bytes.now j marks.new }
{
    mark_neighbour(judged, west_of(j), true, marks);
    mark_neighbour(judged, east_of(judged.file.count, j), false, marks);
}

fn is_beyond(judged: JudgedFile<'_>, j: u16, s: Strip<'_>, i: u16, marks: &[u8; MARK_BYTES]) -> bool
    requires strip { told s ≡ strip judged.file.bytes.now j }
    requires slot { i < s.slots }
    requires named { name_good max_edge (told s) i ≡ true }
    requires marked { Marked judged.file.bytes.now j marks.now }
    ensures { result ≡ beyond (strips judged.entry.file.bytes.now) (strip judged.entry.file.bytes.now) j ((told s.entry).name i) }
{
    marks[place_in(s, i)] != 0
}

// Question 13 of slot i, or question 14 where home names are asked: a name of the other kind passes.
fn stands_right(
    judged: JudgedFile<'_>,
    j: u16,
    s: Strip<'_>,
    i: u16,
    homes: bool,
    marks: &[u8; MARK_BYTES],
) -> bool
    requires strip { told s ≡ strip judged.file.bytes.now j }
    requires slot { i < s.slots }
    requires named { name_good max_edge (told s) i ≡ true }
    requires marked { Marked judged.file.bytes.now j marks.now }
    ensures { result ≡ stands_right homes (strips judged.entry.file.bytes.now) (strip judged.entry.file.bytes.now) j i }
{
    s.is_home(i) != homes || is_beyond(judged, j, s, i, marks) != homes
}

fn question_of(homes: bool) -> SeamQuestion
    ensures { result ≡ asked_of homes }
{
    if homes {
        SeamQuestion::StartsHere
    } else {
        SeamQuestion::RunsOn
    }
}

fn all_right(
    judged: JudgedFile<'_>,
    j: u16,
    s: Strip<'_>,
    homes: bool,
    marks: &[u8; MARK_BYTES],
) -> Result<(), SeamFault>
    requires strip { told s ≡ strip judged.file.bytes.now j }
    requires few { j < max_strips }
    requires named { (k : ℕ) → k < s.slots → name_good max_edge (told s) k ≡ true }
    requires marked { Marked judged.file.bytes.now j marks.now }
    ensures { result ≡ answered (at (seam_fault (asked_of homes) (j + 1)) (each s.entry.slots (stands_right homes (strips judged.entry.file.bytes.now) (strip judged.entry.file.bytes.now) j))) tt }
{
    ask_each(question_of(homes), j + 1, s.slots, |i| {
        stands_right(judged, j, s, i, homes, marks)
    })
}

fn ask_strip(
    judged: JudgedFile<'_>,
    j: u16,
    homes: bool,
    marks: &mut [u8; MARK_BYTES],
) -> Result<(), SeamFault>
    requires { j < judged.file.count }
    ensures { result ≡ answered (at (seam_fault (asked_of homes) (j + 1)) (each (strip judged.entry.file.bytes.now j).slots (stands_right homes (strips judged.entry.file.bytes.now) (strip judged.entry.file.bytes.now) j))) tt }
{
    marks.fill(0);
    mark_beyond(judged, j, marks);
    let s = judged.file.strip(j);
    all_right(judged, j, s, homes, marks)
}

// Question 13 of all strips, or question 14 where home names are asked.
fn ask_beyond(
    judged: JudgedFile<'_>,
    homes: bool,
    marks: &mut [u8; MARK_BYTES],
) -> Result<(), SeamFault>
    ensures { result ≡ answered (over_strips (asked_of homes) judged.entry.file.bytes.now (stands_right homes (strips judged.entry.file.bytes.now) (strip judged.entry.file.bytes.now))) tt }
{
    for j in 0..judged.file.count {
        ask_strip(judged, j, homes, marks)?;
    }
    Ok(())
}

// Question 13, of all strips.
pub fn ask_runs_on(judged: JudgedFile<'_>, marks: &mut [u8; MARK_BYTES]) -> Result<(), SeamFault>
    ensures { result ≡ answered (q13 judged.entry.file.bytes.now) tt }
{
    ask_beyond(judged, false, marks)
}

// Question 14, of all strips.
pub fn ask_starts_here(
    judged: JudgedFile<'_>,
    marks: &mut [u8; MARK_BYTES],
) -> Result<(), SeamFault>
    ensures { result ≡ answered (q14 judged.entry.file.bytes.now) tt }
{
    ask_beyond(judged, true, marks)
}
