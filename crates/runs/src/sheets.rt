// Lists of calls over a stripped sheet, cuts and knits among them, beside a second store that gets the edits only.
ghost use Rattle.std.specs.Prelude.{◌≡◌};
ghost use Rattle.halfedges.specs.View.{seen};
ghost use Rattle.halfedges.specs.Rows.{lines_in};
ghost use Rattle.strips.specs.Sheets.{sheet_of};
ghost use Rattle.runs.specs.Chains.{Chain};
ghost use Rattle.runs.specs.Runs.{Step, FlatStep, FlatAt};
ghost use Rattle.runs.specs.Sheets.{SheetCarried, SheetStep, FlatSheetStep};
ghost use Rattle.runs.specs.Flatness.{sheet_flat};
ghost use Rattle.runs.specs.Agreed.{Alike};
ghost use Rattle.chart.specs.Bounds.{lines, meaning};

use crate::calls::{Call, Carry, Item, run};
use chart::Store;
use strips::sheet::Sheet;
use turning::refusal::Refusal;

// An edit, or a border put in or taken out.
#[derive(Drop)]
pub enum SheetCall {
    Edit(Call),
    Cut(i32),
    Knit(i32),
}

impl<'a> Carry<Sheet<'a>> for SheetCall {
    ghost means = { λ s. sheet_of s.borders.items s.rows.at.now };

    ghost carried = { SheetCarried };

    ghost keeps_flat = { sheet_flat };

    fn carry(&mut self, sheet: &mut Sheet<'a>) -> Result<(), Refusal> {
        match self {
            SheetCall::Edit(edit) => edit.carry(sheet),
            SheetCall::Cut(x) => sheet.cut(*x),
            SheetCall::Knit(x) => sheet.knit(*x),
        }
    }
}

// The sheet gets its list, the other store another. Where that is the edits of the sheet's list, and no edit is refused for want of buffers or of room, both answer alike and end alike.
pub fn run_both<S: Store>(
    sheet: &mut Sheet,
    calls: &mut [Item<SheetCall>],
    other: &mut S,
    items: &mut [Item<Call>],
)
    ensures sheet { Chain SheetStep (sheet_of sheet.old.borders.items sheet.old.rows.at.now) calls.old calls.new (sheet_of sheet.new.borders.items sheet.new.rows.at.now) }
    ensures other { Chain Step (meaning S.Store other.old) items.old items.new (meaning S.Store other.new) }
    ensures flat { FlatAt (sheet_of sheet.old.borders.items sheet.old.rows.at.now) → Chain FlatSheetStep (sheet_of sheet.old.borders.items sheet.old.rows.at.now) calls.old calls.new (sheet_of sheet.new.borders.items sheet.new.rows.at.now) }
    ensures alike { Alike calls.old items.old (lines_in (seen sheet.old.rows.at.now)) (lines S.Chart other.old) calls.new items.new (lines_in (seen sheet.new.rows.at.now)) (lines S.Chart other.new) }
{
    run(sheet, calls);
    run(other, items);
}
