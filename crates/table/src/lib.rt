// The single table: a store in one lent slice of records, two slots an edge.
#![tactic(auto)]

ghost use Rattle.std.specs.Prelude.{◌≡◌, ℕ, ◌<◌, Bool, true, false, List, [], ◌∷◌, length, ℤ, Option, nat_le};
ghost use Rattle.turning.specs.Limits.{max_edge, slots};
ghost use Rattle.turning.specs.Refusals.{asked};
ghost use Rattle.turning.specs.declared.refusal.Refusal.TheVariants.{ShortMemory};
ghost use Rattle.chart.specs.declared.point.Point.{Point};
ghost use Rattle.chart.specs.Linework.{no_lines};
ghost use Rattle.halfedges.specs.View.{seen};
ghost use Rattle.halfedges.specs.Rows.{turn_of, points_of, lines_in};
ghost use Rattle.table.specs.Tables.{Kept, lawful_of, frame_of, fits_of};

use chart::asks::{east_end, holds_edge, may_cleave, may_hang, west_to_east};
use chart::point::{End, Point};
use chart::{Chart, Store};
use halfedges::edges::{Span, cleave_edge, hang_edge, lift_edge};
use halfedges::halfedge::{Halfedge, Rows};
use halfedges::slots;
use turning::Turning;
use turning::edges::count_edges;
use turning::limits::SLOTS;
use turning::refusal::Refusal;

pub mod merge;

// All of a single table lies in one strip.
const WHOLE: Span = Span { west: 1, east: 1 };

// Line work in memory that the caller lends. Where the memory is too short, the table holds nothing and nothing fits.
#[derive(Drop)]
pub struct Table<'a> {
    rows: Rows<'a>,
    ghost ok: { ∥ Kept rows.at.now ∥₁ },
}

impl<'a> Table<'a> {
    // An empty table, whatever the memory held. A memory that is too short is left as it is; `ready` then refuses.
    pub fn new(memory: &'a mut [Halfedge]) -> Table<'a>
        ensures empty { lines_in (seen result.rows.at.now) ≡ no_lines }
        ensures length { length result.rows.at.now ≡ length memory.old }
        ensures left { length memory.old < slots → result.rows.at.now ≡ memory.old }
    {
        let rows = Rows::new(memory);
        Table { rows }
    }

    // Has the memory that the table was given enough records?
    pub fn ready(&self) -> Result<(), Refusal>
        ensures { result ≡ asked ((nat_le slots (length self.now.rows.at.now), ShortMemory) ∷ []) tt }
    {
        self.rows.ready()
    }

    // Do two more slots fit?
    fn has_room(&self) -> bool
        ensures { (p q : Point) → result ≡ fits_of self.now.rows.at.now p q }
    {
        self.rows.is_long() && count_edges(self) as usize * 2 + 2 <= SLOTS
    }
}

// One line each over the lent records, as in a sheet. The records by themselves are no turning: a trait's laws hold of every value of a type, and of these between changes alone.
impl Turning for Table<'_> {
    ghost turn = { λ t. turn_of (seen t.rows.at.now) };

    ghost lawful = { λ t. lawful_of t.rows.at.now t.ok };

    fn holds(&self, h: i16) -> bool {
        slots::slot(self.rows.at, h) != 0
    }

    fn follower(&self, h: i16) -> i16 {
        slots::row_of(self.rows.at, h).follower
    }

    fn predecessor(&self, h: i16) -> i16 {
        slots::row_of(self.rows.at, h).predecessor
    }
}

impl Chart for Table<'_> {
    ghost points = { λ t. points_of (seen t.rows.at.now) };

    fn point(&self, h: i16) -> Option<Point> {
        slots::point_of(self.rows.at, h)
    }

    fn placed(&self) {}
}

// A sheet's changes have this shape too; one generic for both would need a trait with the room and the three changes, each with its contract once more.
impl Store for Table<'_> {
    ghost frame = { λ t. frame_of t.rows.at.now };

    ghost fits = { λ t. fits_of t.rows.at.now };

    fn hang(&mut self, edge: u16, a: End, b: End) -> bool {
        let fits = self.has_room();
        if !may_hang(self, edge, a, b, fits) {
            return false;
        }
        let (start, end) = west_to_east(a, b);
        hang_edge(&mut self.rows, edge, start, end, WHOLE);
        true
    }

    fn lift(&mut self, edge: u16) -> bool {
        if !holds_edge(self, edge) {
            return false;
        }
        lift_edge(&mut self.rows, edge);
        true
    }

    fn cleave(&mut self, edge: u16, east: u16, at: Point) -> bool {
        let fits = self.has_room();
        if !may_cleave(self, edge, east, at, fits) {
            return false;
        }
        let Some(to) = east_end(self, edge) else {
            return false;
        };
        cleave_edge(&mut self.rows, edge, east, at, to, WHOLE);
        true
    }
}
