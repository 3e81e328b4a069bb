// A sheet read from bytes: the first question that is answered no, or the line work that the bytes tell.
// Working buffers are lent, of any length and content. Short ones are refused and left alone; others come back zero over the lengths that the questions need, whatever the answer.
#![tactic(auto)]

ghost use Rattle.std.specs.Prelude.{◌≡◌, [], length, replicate, pos, nat_le};
ghost use Rattle.turning.specs.Limits.{max_edge, slots, marks_for, line_for};
ghost use Rattle.search.specs.Buffers.{enough, given_back};
ghost use Rattle.chart.specs.Linework.{no_lines};
ghost use Rattle.halfedges.specs.View.{seen};
ghost use Rattle.halfedges.specs.Rows.{turn_of, lines_in};
ghost use Rattle.file.specs.Lines.{flat};
ghost use Rattle.file.specs.Places.{answered};
ghost use Rattle.reading.specs.Reading.{sheet_verdict, read_verdict, Read};

use file::fault::{Fault, QuestionFault};
use file::questions::{CallQuestion, FlatQuestion};
use judge::judge;
use laying::lay_out;
use questions::counting::counts;
use search::marks::{Lent, Line, Marks};
use strips::sheet::Sheet;
use turning::limits::{LINE_NAMES, MARK_BYTES};

mod by_name;
mod entering;
mod entry;
mod laying;

// Question 17: vertices + loops = edges + 2 × pieces.
fn is_flat(sheet: &Sheet, marks: &mut Marks, line: &mut Line) -> bool
    ensures { result ≡ flat max_edge (turn_of (seen sheet.now.rows.at.now)) }
{
    // Only short buffers are refused, and these are long enough.
    let Ok(count) = counts(sheet, marks, line) else {
        return false;
    };
    count.is_flat()
}

// Reads into an empty sheet, over buffers of the right lengths.
fn read_into(
    sheet: &mut Sheet,
    bytes: &[u8],
    marks: &mut Marks,
    line: &mut Line,
) -> Result<(), Fault>
    requires uncut { sheet.old.borders.items ≡ [] }
    requires empty { lines_in (seen sheet.old.rows.at.now) ≡ no_lines }
    ensures answer { result ≡ answered (sheet_verdict (nat_le slots (length sheet.old.rows.at.now)) bytes.now) tt }
    ensures read { Read result bytes.now sheet.new.borders.items sheet.new.rows.at.now }
    ensures length { length sheet.new.rows.at.now ≡ length sheet.old.rows.at.now }
{
    if sheet.ready().is_err() {
        return Err(Fault::from(QuestionFault::new(CallQuestion::Memory, 0, 0)));
    }
    judge(bytes, marks, line)?;
    lay_out(sheet, bytes, line);
    if !is_flat(sheet, marks, line) {
        sheet.clear();
        return Err(Fault::from(QuestionFault::new(FlatQuestion::Flat, 0, 0)));
    }
    Ok(())
}

// The same; the guards clear the buffers on every way out.
fn read_within(
    sheet: &mut Sheet,
    bytes: &[u8],
    marks: &mut Marks,
    line: &mut Line,
) -> Result<(), Fault>
    requires uncut { sheet.old.borders.items ≡ [] }
    requires empty { lines_in (seen sheet.old.rows.at.now) ≡ no_lines }
    ensures answer { result ≡ answered (sheet_verdict (nat_le slots (length sheet.old.rows.at.now)) bytes.now) tt }
    ensures read { Read result bytes.now sheet.new.borders.items sheet.new.rows.at.now }
    ensures length { length sheet.new.rows.at.now ≡ length sheet.old.rows.at.now }
    ensures zero { marks.new ≡ replicate (length marks.old) 0 }
    ensures blank { line.new ≡ replicate (length line.old) (pos 0) }
{
    let lent = Lent { at: marks };
    let waiting = Lent { at: line };
    read_into(sheet, bytes, lent.at, waiting.at)
}

// The sheet that the bytes tell, whatever the sheet held before; or the first fault, and then the empty sheet of one strip.
pub fn read(
    sheet: &mut Sheet,
    bytes: &[u8],
    marks: &mut [u8],
    line: &mut [i16],
) -> Result<(), Fault>
    ensures answer { result ≡ answered (read_verdict (enough max_edge marks.old line.old) (nat_le slots (length sheet.old.rows.at.now)) bytes.now) tt }
    ensures read { Read result bytes.now sheet.new.borders.items sheet.new.rows.at.now }
    ensures length { length sheet.new.rows.at.now ≡ length sheet.old.rows.at.now }
    ensures zero { marks.new ≡ given_back (enough max_edge marks.old line.old) (marks_for max_edge) 0 marks.old }
    ensures blank { line.new ≡ given_back (enough max_edge marks.old line.old) (line_for max_edge) (pos 0) line.old }
{
    sheet.clear();
    let short = Fault::from(QuestionFault::new(CallQuestion::Buffers, 0, 0));
    let Some(marks) = marks.first_chunk_mut::<MARK_BYTES>() else {
        return Err(short);
    };
    let Some(line) = line.first_chunk_mut::<LINE_NAMES>() else {
        return Err(short);
    };
    read_within(sheet, bytes, marks, line)
}
