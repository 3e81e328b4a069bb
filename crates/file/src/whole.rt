// The questions asked of a whole file.
ghost use Rattle.std.specs.Prelude.{◌≡◌, ◌+◌, ◌-◌, ◌*◌, ◌<◌, ◌≤◌, [], ◌∷◌, length, IfOk};
ghost use Rattle.std.specs.Result.{result_err};
ghost use Rattle.file.specs.Layout.{strips, strip_at};
ghost use Rattle.file.specs.Places.{answered, first_of};
ghost use Rattle.file.specs.Questions.{border_good};
ghost use Rattle.file.specs.Shapes.{Counted};
ghost use Rattle.file.specs.Verdict.{q1, q2, q3, q5, file_verdict};

use crate::asking::ask_each;
use crate::fault::QuestionFault;
use crate::parts::{File, border_at};
use crate::questions::{FileFault, FileQuestion};
use crate::reader::Reader;
use chart::point::is_within;
use turning::limits::{MAX_STRIPS, SLOTS};

// Questions 1 and 2: how many strips there are, and whether the sizes of all of them are there.
fn count_strips(bytes: &[u8]) -> Result<u16, FileFault>
    ensures { result ≡ answered (first_of (q1 bytes.now ∷ (q2 bytes.now ∷ []))) (strips bytes.now) }
{
    let [low, high, rest @ ..] = bytes else {
        return Err(QuestionFault::new(FileQuestion::Count, 0, 0));
    };
    let count = u16::from_le_bytes([*low, *high]);
    if count < 1 || count as usize > MAX_STRIPS {
        return Err(QuestionFault::new(FileQuestion::Count, 0, 0));
    }
    if rest.len() < 4 * count as usize {
        return Err(QuestionFault::new(FileQuestion::SizesThere, 0, 0));
    }
    Ok(count)
}

// A file that tells how many strips it has, and has the sizes of them all.
#[derive(Clone, Copy)]
struct Head<'a> {
    bytes: &'a [u8],
    count: u16,
    ghost counted: { Counted bytes.now count },
}

// Question 3: where the strips end. A loop, and neither `ask_each` nor `try_fold`: each turn reads on and adds to two sums that the next one is asked of.
fn sizes_fit(head: Head<'_>) -> Result<usize, FileFault>
    ensures { result ≡ answered (q3 head.entry.bytes.now) (strip_at head.entry.bytes.now head.entry.count) }
{
    let count = head.count;
    let mut reader = Reader::new(head.bytes, 2);
    let mut total: u32 = 0;
    let mut end: usize = 2 + 4 * count as usize + 4 * (count as usize - 1);
    for j in 0..count {
        let sizes = reader.sizes();
        total += sizes.slots as u32;
        if sizes.vertices > sizes.slots || total as usize > SLOTS {
            return Err(QuestionFault::new(FileQuestion::SizesFit, j + 1, 0));
        }
        end += sizes.bytes();
    }
    Ok(end)
}

fn border_good(head: Head<'_>, k: u16) -> bool
    requires between { k + 1 < head.count }
    requires borders { 2 + 4 * head.count + 4 * (head.count - 1) ≤ length head.bytes.now }
    ensures { result ≡ border_good head.entry.bytes.now k }
{
    let here = border_at(head.bytes, head.count, k);
    is_within(here) && (k == 0 || border_at(head.bytes, head.count, k - 1) < here)
}

// Question 5.
fn borders_rise(head: Head<'_>) -> Result<(), FileFault>
    requires borders { 2 + 4 * head.count + 4 * (head.count - 1) ≤ length head.bytes.now }
    ensures { result ≡ answered (q5 head.entry.bytes.now) tt }
{
    ask_each(FileQuestion::Borders, 0, head.count - 1, |k| {
        border_good(head, k)
    })
}

// The file, where the questions of the whole file are answered yes.
pub fn ask_file(bytes: &[u8]) -> Result<File<'_>, FileFault>
    ensures verdict { result_err result ≡ file_verdict bytes.now }
    ensures file { IfOk result (λ f. f.bytes.now ≡ bytes.now) }
{
    let count = count_strips(bytes)?;
    let head = Head { bytes, count };
    let end = sizes_fit(head)?;
    if bytes.len() != end {
        return Err(QuestionFault::new(FileQuestion::Length, 0, 0));
    }
    borders_rise(head)?;
    Ok(File { bytes, count })
}
