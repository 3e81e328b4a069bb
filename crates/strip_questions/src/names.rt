// Question 6: each name is e or -e, with e in range.
ghost use Rattle.std.specs.Prelude.{◌≡◌};
ghost use Rattle.turning.specs.Limits.{max_edge};
ghost use Rattle.file.specs.Places.{answered};
ghost use Rattle.file.specs.Questions.{named};
ghost use Rattle.file.specs.Verdict.{q6};
ghost use Rattle.file.specs.Views.{told};

use file::asking::ask_each;
use file::questions::{StripFault, StripQuestion};
use file::view::Strip;
use turning::limits::MAX_NAME;

// Is the name e or -e, with e in range?
pub fn name_good(name: i16) -> bool
    ensures { result ≡ named max_edge name }
{
    (1 <= name && name <= MAX_NAME) || (-MAX_NAME <= name && name <= -1)
}

// Question 6, of one strip.
pub fn names_good(s: Strip<'_>, number: u16) -> Result<(), StripFault>
    ensures { result ≡ answered (q6 (told s.entry) number) tt }
{
    ask_each(StripQuestion::Names, number, s.slots, |i| {
        name_good(s.name(i))
    })
}
