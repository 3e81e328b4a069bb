// A table takes over what another chart holds.
ghost use Rattle.std.specs.Prelude.{◌≡◌, ◌*◌, true, false, nat_le};
ghost use Rattle.turning.specs.Limits.{max_edge};
ghost use Rattle.chart.specs.Bounds.{lines};
ghost use Rattle.halfedges.specs.View.{seen};
ghost use Rattle.halfedges.specs.Rows.{lines_in, edge_count};
ghost use Rattle.table.specs.Tables.{room_of};

use crate::Table;
use chart::Chart;
use halfedges::copy::copy_chart;
use turning::edges::count_edges;
use turning::limits::SLOTS;

impl<'a> Table<'a> {
    // Holds exactly the chart from now on, whatever it held, if the chart's edges find their slots. A no leaves the memory as it is.
    pub fn take_over<C: Chart>(&mut self, chart: &C) -> bool
        ensures told { result ≡ nat_le (2 * edge_count max_edge (C.Turning.turn chart.now)) (room_of self.old.rows.at.now) }
        ensures taken { result ≡ true → lines_in (seen self.new.rows.at.now) ≡ lines C.Chart chart.now }
        ensures left { result ≡ false → self.new.rows.at.now ≡ self.old.rows.at.now }
    {
        chart.placed();
        let edges = count_edges(chart) as usize;
        // A table over a memory that is too short has no slots, and holds nothing: so it has what an empty chart has.
        if !self.rows.is_long() {
            return edges == 0;
        }
        if 2 * edges > SLOTS {
            return false;
        }
        copy_chart(&mut self.rows, chart);
        true
    }
}
