// Question 16: where +e and -e are home in one strip, the point of +e is west of that of -e.
ghost use Rattle.std.specs.Prelude.{◌≡◌, ℕ, ◌+◌, ◌<◌, Some};
ghost use Rattle.turning.specs.Limits.{max_strips};
ghost use Rattle.file.specs.declared.questions.SeamQuestion.TheVariants.{WestFirst};
ghost use Rattle.file.specs.Places.{answered, at, each};
ghost use Rattle.file.specs.Questions.{west_first};
ghost use Rattle.file.specs.Verdict.{seam_fault, q16};
ghost use Rattle.file.specs.Views.{told};
ghost use Rattle.seam_questions.specs.Vertices.{Sound, Numbered, westward};

use crate::vertices::{line_in, line_of, number_vertices, vertex_at};
use file::asking::ask_each;
use file::parts::JudgedFile;
use file::questions::{SeamFault, SeamQuestion};
use file::view::Strip;
use turning::limits::LINE_NAMES;

fn is_west(s: Strip<'_>, p: Option<u16>, q: Option<u16>) -> bool
    requires first { (v : ℕ) → p ≡ Some v → v < s.vertices }
    requires second { (v : ℕ) → q ≡ Some v → v < s.vertices }
    ensures { result ≡ westward (told s.entry) p q }
{
    match (p, q) {
        (Some(p), Some(q)) => s.point(p).is_west_of(s.point(q)),
        _ => true,
    }
}

fn is_westward(s: Strip<'_>, i: u16, line: &[i16; LINE_NAMES]) -> bool
    requires sound { Sound (told s) }
    requires slot { i < s.slots }
    requires numbered { Numbered (told s) line.now }
    ensures { result ≡ west_first (told s.entry) i }
{
    if s.name(i) < 1 {
        return true;
    }
    let p = vertex_at(line, line_in(s, i));
    let q = vertex_at(line, line_of(-s.name(i)));
    is_west(s, p, q)
}

fn all_westward(s: Strip<'_>, j: u16, line: &[i16; LINE_NAMES]) -> Result<(), SeamFault>
    requires sound { Sound (told s) }
    requires few { j < max_strips }
    requires numbered { Numbered (told s) line.now }
    ensures { result ≡ answered (at (seam_fault WestFirst (j + 1)) (each s.entry.slots (west_first (told s.entry)))) tt }
{
    ask_each(SeamQuestion::WestFirst, j + 1, s.slots, |i| {
        is_westward(s, i, line)
    })
}

// Question 16, of all strips.
pub fn ask_westward(judged: JudgedFile<'_>, line: &mut [i16; LINE_NAMES]) -> Result<(), SeamFault>
    ensures { result ≡ answered (q16 judged.entry.file.bytes.now) tt }
{
    for j in 0..judged.file.count {
        let s = judged.file.strip(j);
        number_vertices(s, line);
        all_westward(s, j, line)?;
    }
    Ok(())
}
