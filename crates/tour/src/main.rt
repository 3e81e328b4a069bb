// A tour of the engine: one parcel is drawn in a single table, walked and counted, laid out in strips, looked at strip by strip, and merged again; then it is edited in its strips, and the strips are cut and knit. Each step is printed.
#![tactic(auto)]

use chart::point::{End, Point};
use chart::{Chart, Store};
use edits::{join, remove, split};
use halfedges::halfedge::FREE;
use questions::counting::counts;
use questions::loops::loop_length;
use strips::sheet::Sheet;
use table::Table;
use turning::limits::{LINE_NAMES, MARK_BYTES, MAX_NAME, SLOTS};
use turning::refusal::Refusal;
use turning::{LoopSide, Turning};

const A: Point = Point { x: 0, y: 0 };

const B: Point = Point { x: 4, y: 0 };

const C: Point = Point { x: 2, y: 3 };

fn yes_or_no(answer: bool) -> &'static str {
    if answer { "yes" } else { "no" }
}

// Hangs an edge between two ends, and prints what was asked and answered.
fn hang<S: Store>(rt: &impl Print, store: &mut S, edge: u16, a: End, b: End) -> anyhow::Result<()> {
    let answer = yes_or_no(store.hang(edge, a, b));
    println!(rt; "hang {edge} between {} and {}: {answer}", a.point, b.point)?;
    Ok(())
}

// Draws the triangle A, B, C: edge 1 is AB, 2 is AC, 3 is CB. The fourth edge finds its points taken.
fn draw<S: Store>(rt: &impl Print, store: &mut S) -> anyhow::Result<()> {
    hang(rt, store, 1, End::new(A), End::new(B))?;
    hang(rt, store, 2, End::after(A, 1), End::new(C))?;
    hang(rt, store, 3, End::after(C, -2), End::after(B, -1))?;
    hang(rt, store, 4, End::new(A), End::new(C))
}

// Prints the loop of h: its halfedges, each with the point where it starts.
fn print_loop<T: Chart>(rt: &impl Print, t: &T, h: i16) -> anyhow::Result<()> {
    let length = loop_length(t, h)?;
    print!(rt; "loop of {length} halfedges:")?;
    let side = LoopSide { below: t };
    let mut x = h;
    for _ in 0..length {
        if let Some(p) = t.point(x) {
            print!(rt; " {x:+} from {p}")?;
        }
        x = side.follower(x);
    }
    println!(rt; "")?;
    Ok(())
}

// Prints the four counts, and whether the chart is flat.
fn print_counts<T: Turning>(
    rt: &impl Print,
    t: &T,
    marks: &mut [u8],
    line: &mut [i16],
) -> anyhow::Result<()> {
    let c = counts(t, marks, line)?;
    println!(rt; "{c}")?;
    println!(rt; "flat: {}", yes_or_no(c.is_flat()))?;
    Ok(())
}

// Prints the slots of one strip, and answers how many they are.
fn print_strip(rt: &impl Print, sheet: &Sheet, strip: u16) -> anyhow::Result<u32> {
    let mut slots: u32 = 0;
    print!(rt; "strip {strip}:")?;
    for h in -MAX_NAME..=MAX_NAME {
        if let Ok(home) = sheet.home(strip, h) {
            let kind = if home.strip == strip {
                "home"
            } else {
                "external"
            };
            print!(rt; " {h:+} {kind}")?;
            slots = slots.saturating_add(1);
        }
    }
    println!(rt; "")?;
    Ok(slots)
}

// Prints all slots strip by strip, and how many are used.
fn print_slots(rt: &impl Print, sheet: &Sheet) -> anyhow::Result<()> {
    let mut used: u32 = 0;
    for strip in 1..=sheet.strips() {
        used = used.saturating_add(print_strip(rt, sheet, strip)?);
    }
    println!(rt; "slots used: {used}")?;
    Ok(())
}

// Do the two charts hold the same names with equal followers and points?
fn equal<S: Chart, T: Chart>(s: &S, t: &T) -> bool {
    (-MAX_NAME..=MAX_NAME).all(|h| {
        s.holds(h) == t.holds(h) && s.follower(h) == t.follower(h) && s.point(h) == t.point(h)
    })
}

// Lays the table's chart out in two strips, and merges it into another table.
fn cut_and_merge(
    rt: &impl Print,
    table: &Table,
    sheet: &mut Sheet,
    merged: &mut Table,
) -> anyhow::Result<()> {
    sheet.layout(table, &[2])?;
    println!(rt;
        "laid out with a border at x = 2: {} strips",
        sheet.strips()
    )?;
    print_slots(rt, sheet)?;
    let home = sheet.home(2, 1)?;
    println!(rt;
        "asked in strip 2, +1 is at home in strip {}, {} border away",
        home.strip, home.crossed
    )?;
    sheet.merge(merged);
    let answer = yes_or_no(equal(merged, table) && equal(sheet, table));
    println!(rt; "merged into another table, the charts are equal: {answer}")?;
    Ok(())
}

// Prints what a call answered.
fn told(rt: &impl Print, call: &str, answer: Result<(), Refusal>) -> anyhow::Result<()> {
    match answer {
        Ok(()) => println!(rt; "{call}: done")?,
        Err(refusal) => println!(rt; "{call}: {refusal}")?,
    }
    Ok(())
}

// Divides the parcel by an edge from its lower side to its top, cuts and knits the sheet under it, and takes the edge out again.
fn edit(
    rt: &impl Print,
    sheet: &mut Sheet,
    marks: &mut [u8],
    line: &mut [i16],
) -> anyhow::Result<()> {
    let p = Point { x: 1, y: 0 };
    told(rt, "split 1 at (1, 0)", split(sheet, 1, 4, p))?;
    let outer = join(sheet, 5, 4, 3, marks, line);
    told(rt, "join 5 after +4 and +3", outer)?;
    let inner = join(sheet, 5, 4, -2, marks, line);
    told(rt, "join 5 after +4 and -2", inner)?;
    print_counts(rt, sheet, marks, line)?;
    told(rt, "cut at x = 1", sheet.cut(1))?;
    told(rt, "cut at x = 2", sheet.cut(2))?;
    print_slots(rt, sheet)?;
    told(rt, "knit at x = 2", sheet.knit(2))?;
    told(rt, "remove 5", remove(sheet, 5))?;
    told(rt, "remove 5", remove(sheet, 5))?;
    print_loop(rt, sheet, 1)
}

fn tour(rt: &HostRuntime) -> anyhow::Result<()> {
    let heap = rt.alloc();
    let mut memory = vec![in heap; FREE; SLOTS]?;
    let mut sheet_memory = vec![in heap; FREE; SLOTS]?;
    let mut merged_memory = vec![in heap; FREE; SLOTS]?;
    let mut marks = vec![in heap; 0u8; MARK_BYTES]?;
    let mut line = vec![in heap; 0i16; LINE_NAMES]?;
    let mut table = Table::new(memory.as_mut_slice());
    table.ready()?;
    println!(rt; "a new table over {SLOTS} records")?;
    draw(rt, &mut table)?;
    print_loop(rt, &table, 1)?;
    print_loop(rt, &table, -1)?;
    print_counts(rt, &table, marks.as_mut_slice(), line.as_mut_slice())?;
    let mut sheet = Sheet::new(sheet_memory.as_mut_slice());
    sheet.ready()?;
    let mut merged = Table::new(merged_memory.as_mut_slice());
    merged.ready()?;
    cut_and_merge(rt, &table, &mut sheet, &mut merged)?;
    edit(rt, &mut sheet, marks.as_mut_slice(), line.as_mut_slice())
}

fn main(rt: HostRuntime) -> anyhow::Result<()> {
    tour(&rt)
}
