// Layouts and merges: whole charts go into a sheet's strips, and a sheet's chart into a single table.
ghost use Rattle.std.specs.Prelude.{◌≡◌, ◌<◌, ◌≤◌, length, Ok};
ghost use Rattle.turning.specs.Limits.{max_edge, slots};
ghost use Rattle.turning.specs.Refusals.{asked};
ghost use Rattle.chart.specs.Linework.{no_lines};
ghost use Rattle.chart.specs.Bounds.{lines};
ghost use Rattle.halfedges.specs.View.{seen};
ghost use Rattle.halfedges.specs.Rows.{lines_in};
ghost use Rattle.strips.specs.Borders.{slots_taken};
ghost use Rattle.strips.specs.Sheets.{Kept, room_of};
ghost use Rattle.strips.specs.Answers.{layout_questions, Laid};

use crate::borders;
use crate::borders::Borders;
use crate::recut::fill;
use crate::sheet::Sheet;
use crate::taken::slots_needed;
use chart::Chart;
use halfedges::halfedge::Rows;
use table::Table;
use turning::refusal::Refusal;

// Puts a whole chart into the memory, in the strips of the borders. A memory that is too short holds nothing, as a chart without an edge does.
fn put_chart<C: Chart>(rows: &mut Rows, chart: &C, borders: &Borders)
    requires room { slots_taken borders.now.items (lines C.Chart chart.now) max_edge ≤ room_of rows.old.at.now }
    ensures kept { Kept borders.now.items rows.new.at.now }
    ensures lines { lines_in (seen rows.new.at.now) ≡ lines C.Chart chart.now }
    ensures length { length rows.new.at.now ≡ length rows.old.at.now }
{
    chart.placed();
    if rows.is_long() {
        fill(rows, chart, borders);
    }
}

impl<'a> Sheet<'a> {
    // Holds exactly the chart, in the strips of the borders, whatever it held before. A refusal leaves the sheet as it is.
    pub fn layout<C: Chart>(&mut self, chart: &C, borders: &[i32]) -> Result<(), Refusal>
        ensures answer { result ≡ asked (layout_questions borders.now (lines C.Chart chart.now) (room_of self.old.rows.at.now)) tt }
        ensures laid { Laid result borders.now (lines C.Chart chart.now) self.old.borders.items self.old.rows.at.now self.new.borders.items self.new.rows.at.now }
        ensures length { length self.new.rows.at.now ≡ length self.old.rows.at.now }
    {
        let cut = borders::check(borders)?;
        if slots_needed(chart, &cut) > self.slot_count() {
            return Err(Refusal::NoRoom);
        }
        put_chart(&mut self.rows, chart, &cut);
        self.borders = cut;
        Ok(())
    }

    // The table holds exactly the sheet's chart, whatever it held before. Nothing is refused: a sheet never has more edges than a table takes. A table over too short a memory stays as it is.
    pub fn merge(&self, table: &mut Table)
        ensures merged { slots ≤ length table.old.rows.at.now → lines_in (seen table.new.rows.at.now) ≡ lines_in (seen self.now.rows.at.now) }
        ensures left { length table.old.rows.at.now < slots → lines_in (seen table.new.rows.at.now) ≡ no_lines }
    {
        let _ = table.take_over(self);
    }
}

// Lays a chart out in strips and merges it again: the table then has the same chart, whatever the borders were.
pub fn lay_out_and_merge<C: Chart>(
    chart: &C,
    borders: &[i32],
    sheet: &mut Sheet,
    table: &mut Table,
) -> Result<(), Refusal>
    ensures answer { result ≡ asked (layout_questions borders.now (lines C.Chart chart.now) (room_of sheet.old.rows.at.now)) tt }
    ensures same { result ≡ Ok tt → slots ≤ length table.old.rows.at.now → lines_in (seen table.new.rows.at.now) ≡ lines C.Chart chart.now }
{
    sheet.layout(chart, borders)?;
    sheet.merge(table);
    Ok(())
}

// Lays a chart out in two sheets: whatever the borders of each are, the charts are the same.
pub fn lay_out_twice<C: Chart>(
    chart: &C,
    first: &[i32],
    second: &[i32],
    one: &mut Sheet,
    other: &mut Sheet,
) -> Result<(), Refusal>
    ensures alike { result ≡ Ok tt → lines_in (seen one.new.rows.at.now) ≡ lines_in (seen other.new.rows.at.now) }
{
    one.layout(chart, first)?;
    other.layout(chart, second)?;
    Ok(())
}
