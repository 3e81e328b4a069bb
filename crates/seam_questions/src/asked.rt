// The questions of the seams in order, each of all strips.
ghost use Rattle.std.specs.Prelude.{◌≡◌};
ghost use Rattle.file.specs.Places.{answered};
ghost use Rattle.file.specs.Verdict.{seam_verdict};

use crate::beyond::{ask_runs_on, ask_starts_here};
use crate::homes::ask_homes;
use crate::westward::ask_westward;
use file::parts::JudgedFile;
use file::questions::SeamFault;
use turning::limits::{LINE_NAMES, MARK_BYTES};

// The first fault of the seams of a file.
pub fn ask_seams(
    judged: JudgedFile<'_>,
    marks: &mut [u8; MARK_BYTES],
    line: &mut [i16; LINE_NAMES],
) -> Result<(), SeamFault>
    ensures { result ≡ answered (seam_verdict judged.entry.file.bytes.now) tt }
{
    ask_runs_on(judged, marks)?;
    ask_starts_here(judged, marks)?;
    ask_homes(judged, marks)?;
    ask_westward(judged, line)?;
    Ok(())
}
