// What an accepted file tells goes into a sheet.
ghost use Rattle.std.specs.Prelude.{◌≡◌, ◌≤◌, length, None};
ghost use Rattle.turning.specs.Limits.{slots};
ghost use Rattle.halfedges.specs.View.{seen};
ghost use Rattle.halfedges.specs.Rows.{lines_in};
ghost use Rattle.file.specs.Verdict.{shape_verdict, told_lines};
ghost use Rattle.told.specs.Tells.{borders_in};

use crate::by_name::Told;
use crate::entering::enter;
use crate::entry::Entries;
use arrayvec::ArrayVec;
use file::le::read_u16;
use file::parts::{File, JudgedFile, border_at};
use search::marks::Line;
use strips::sheet::Sheet;
use turning::limits::{MARK_BYTES, MAX_BORDERS};

// The borders that a file tells, from west to east.
fn read_borders(file: File<'_>) -> ArrayVec<i32, MAX_BORDERS>
    ensures { result.items ≡ borders_in file.entry.bytes.now }
{
    let mut borders = ArrayVec::new();
    for k in 0..file.count - 1 {
        borders.push(border_at(file.bytes, file.count, k));
    }
    borders
}

// Lays out what an accepted file tells. The line is used up; nothing is refused, for such a file tells what a sheet may hold.
pub(crate) fn lay_out(sheet: &mut Sheet, bytes: &[u8], line: &mut Line)
    requires accepted { shape_verdict bytes.now ≡ None }
    requires long { slots ≤ length sheet.old.rows.at.now }
    ensures borders { sheet.new.borders.items ≡ borders_in bytes.now }
    ensures lines { lines_in (seen sheet.new.rows.at.now) ≡ told_lines bytes.now }
    ensures length { length sheet.new.rows.at.now ≡ length sheet.old.rows.at.now }
{
    let count = read_u16(bytes, 0);
    let file = File { bytes, count };
    let mut entries: Entries = [None; MARK_BYTES];
    enter(JudgedFile { file }, line, &mut entries);
    let told = Told { names: &entries };
    let borders = read_borders(file);
    let _ = sheet.layout(&told, borders.as_slice());
}
