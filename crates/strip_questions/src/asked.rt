// All questions of one strip, in order.
ghost use Rattle.std.specs.Prelude.{◌≡◌, ◌≤◌, IfOk};
ghost use Rattle.std.specs.Result.{result_err};
ghost use Rattle.turning.specs.Limits.{slots as max_slots};
ghost use Rattle.file.specs.Places.{answered};
ghost use Rattle.file.specs.Verdict.{strip_verdict, strips_verdict};
ghost use Rattle.file.specs.Views.{told};

use crate::followed::slots_followed;
use crate::names::names_good;
use crate::paired::names_paired;
use crate::plain::{followers_good, points_good};
use crate::points::points_differ;
use crate::walks::rounds_right;
use file::parts::{File, JudgedFile};
use file::questions::StripFault;
use file::view::Strip;
use turning::limits::MARK_BYTES;

// The first of the questions of a strip that is answered no. The strip has this number in faults, and lies between these borders.
pub fn ask_strip(
    s: Strip<'_>,
    number: u16,
    west: Option<i32>,
    east: Option<i32>,
    marks: &mut [u8; MARK_BYTES],
) -> Result<(), StripFault>
    requires { s.slots ≤ max_slots }
    ensures { result ≡ answered (strip_verdict west east (told s.entry) number) tt }
{
    names_good(s, number)?;
    names_paired(s, number, marks)?;
    followers_good(s, number)?;
    slots_followed(s, number, marks)?;
    rounds_right(s, number, marks)?;
    points_good(s, number, west, east)?;
    points_differ(s, number)
}

// The first fault of the strips of a file, all questions of one strip before the next; without one, the file is judged.
pub fn ask_strips<'a>(
    file: File<'a>,
    marks: &mut [u8; MARK_BYTES],
) -> Result<JudgedFile<'a>, StripFault>
    ensures verdict { result_err result ≡ strips_verdict file.entry.bytes.now }
    ensures file { IfOk result (λ j. j.file ≡ file.entry) }
{
    for j in 0..file.count {
        let west = file.western_border(j);
        let east = file.eastern_border(j);
        ask_strip(file.strip(j), j + 1, west, east, marks)?;
    }
    Ok(JudgedFile { file })
}
