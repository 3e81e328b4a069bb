// What the programs in bench/ call: a chain of edges in a table or in strips, with a walk along its one loop; and the whole engine behind one function on bytes.
#![tactic(auto)]

use chart::Store;
use chart::point::{End, Point};
use halfedges::halfedge::FREE;
use strips::sheet::Sheet;
use table::Table;
use turning::limits::{MAX_BORDERS, MAX_EDGE, SLOTS};
use turning::{LoopSide, Turning};

pub mod run;

// Borders for as many strips as a sheet may have.
const BORDERS: [i32; MAX_BORDERS] = [
    60, 120, 180, 240, 300, 360, 420, 480, 540, 600, 660, 720, 780, 840, 900, 960, 1020, 1080,
    1140, 1200, 1260, 1320, 1380, 1440, 1500, 1560, 1620, 1680, 1740, 1800, 1860,
];

// Draws the edges 1 to `edges` one after another from west to east, as far as they fit.
fn draw_chain<S: Store>(store: &mut S, edges: u16) {
    for e in 1..=edges.min(MAX_EDGE) {
        let x = e as i32;
        let corner = if e == 1 { None } else { Some(1 - e as i16) };
        let start = End {
            point: Point { x: x - 1, y: 0 },
            corner,
        };
        let end = End {
            point: Point { x, y: 0 },
            corner: None,
        };
        store.hang(e, start, end);
    }
}

// Takes so many steps by next from +1; answers the sum of the names, so that no step can be left out.
fn walk<T: Turning>(t: &T, steps: u32) -> i64 {
    let side = LoopSide { below: t };
    let mut x: i16 = 1;
    let mut sum: i64 = 0;
    for _ in 0..steps {
        x = side.follower(x);
        sum = sum.wrapping_add(x as i64);
    }
    sum
}

// The sum over a walk along a chain in a single table.
pub fn bench_walk_table(edges: u16, steps: u32) -> i64 {
    let mut memory = [FREE; SLOTS];
    let mut table = Table::new(&mut memory);
    draw_chain(&mut table, edges);
    walk(&table, steps)
}

// The sum over a walk along a chain that is laid out in 32 strips; 0 where it finds no room there.
pub fn bench_walk_sheet(edges: u16, steps: u32) -> i64 {
    let mut memory = [FREE; SLOTS];
    let mut table = Table::new(&mut memory);
    draw_chain(&mut table, edges);
    let mut strips = [FREE; SLOTS];
    let mut sheet = Sheet::new(&mut strips);
    if sheet.layout(&table, &BORDERS).is_err() {
        return 0;
    }
    walk(&sheet, steps)
}
