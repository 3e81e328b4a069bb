// The whole engine behind one function on bytes: a file is read, a list of calls is carried out, and the sheet is written.
// A call comes as 24 bytes: its kind, an edge, two names or numbers, and two points. Its answer goes as 10 bytes: 0 or the number of its refusal, and four counts.
ghost use Rattle.std.specs.Prelude.{◌≡◌, ◌+◌, ◌≤◌, length};

use chart::point::Point;
use edits::{join, remove, split, sprout, start};
use file::fault::Fault;
use file::le::{read_i16, read_i32, read_u16};
use halfedges::halfedge::FREE;
use questions::Counts;
use questions::counting::counts;
use reading::read;
use strips::sheet::Sheet;
use turning::limits::{LINE_NAMES, MARK_BYTES, SLOTS};
use turning::refusal::Refusal;
use writing::write::write;

const CALL: usize = 24;

const ANSWER: usize = 10;

// A call as it comes over the boundary.
#[derive(Clone, Copy)]
enum Asked {
    Start { edge: u16, p: Point, q: Point },
    Sprout { edge: u16, c: i16, p: Point },
    Join { edge: u16, c: i16, d: i16 },
    Split { edge: u16, east: u16, p: Point },
    Remove { edge: u16 },
    Cut(i32),
    Knit(i32),
    Count,
    // A kind that is none of these.
    Other,
}

fn point_at(bytes: &[u8], at: usize) -> Point
    requires { at + 8 ≤ length bytes.now }
{
    Point {
        x: read_i32(bytes, at),
        y: read_i32(bytes, at + 4),
    }
}

// Takes a call apart: its kind comes first.
fn call_at(bytes: &[u8]) -> Asked
    requires { 24 ≤ length bytes.now }
{
    let edge = read_u16(bytes, 2);
    let p = point_at(bytes, 8);
    match read_u16(bytes, 0) {
        0 => Asked::Start {
            edge,
            p,
            q: point_at(bytes, 16),
        },
        1 => Asked::Sprout {
            edge,
            c: read_i16(bytes, 4),
            p,
        },
        2 => Asked::Join {
            edge,
            c: read_i16(bytes, 4),
            d: read_i16(bytes, 6),
        },
        3 => Asked::Split {
            edge,
            east: read_u16(bytes, 4),
            p,
        },
        4 => Asked::Remove { edge },
        5 => Asked::Cut(p.x),
        6 => Asked::Knit(p.x),
        7 => Asked::Count,
        _ => Asked::Other,
    }
}

// Carries out a call; a count and one of another kind change nothing.
fn carry(
    sheet: &mut Sheet,
    call: Asked,
    marks: &mut [u8],
    line: &mut [i16],
) -> Result<(), Refusal> {
    match call {
        Asked::Start { edge, p, q } => start(sheet, edge, p, q),
        Asked::Sprout { edge, c, p } => sprout(sheet, edge, c, p),
        Asked::Join { edge, c, d } => join(sheet, edge, c, d, marks, line),
        Asked::Split { edge, east, p } => split(sheet, edge, east, p),
        Asked::Remove { edge } => remove(sheet, edge),
        Asked::Cut(x) => sheet.cut(x),
        Asked::Knit(x) => sheet.knit(x),
        Asked::Count | Asked::Other => Ok(()),
    }
}

// Writes numbers from the start of a place, two bytes each.
fn put(place: &mut [u8], numbers: &[u16])
    ensures { length place.new ≡ length place.old }
{
    for (bytes, number) in place.chunks_exact_mut(2).zip(numbers) {
        bytes.copy_from_slice(&number.to_le_bytes());
    }
}

// Writes an answer, with its counts where they were asked for.
fn put_answer(place: &mut [u8], answer: Result<(), Refusal>, c: Counts)
    ensures { length place.new ≡ length place.old }
{
    let number = match answer {
        Ok(()) => 0,
        Err(refusal) => refusal as u8 as u16,
    };
    put(place, &[number, c.vertices, c.edges, c.loops, c.pieces]);
}

// Writes a fault in the place of an answer.
fn put_fault(place: &mut [u8], fault: Fault)
    ensures { length place.new ≡ length place.old }
{
    put(
        place,
        &[
            fault.layer as u16,
            fault.number as u16,
            fault.strip,
            fault.place,
        ],
    );
}

// The counts where they are asked for; else none.
fn counted(sheet: &Sheet, call: Asked, marks: &mut [u8], line: &mut [i16]) -> Counts {
    let none = Counts {
        vertices: 0,
        edges: 0,
        loops: 0,
        pieces: 0,
    };
    match call {
        Asked::Count => counts(sheet, marks, line).unwrap_or(none),
        _ => none,
    }
}

// Carries out the calls; the first of them, as many as there are places, leave their answers.
fn carry_all(
    sheet: &mut Sheet,
    calls: &[u8],
    answers: &mut [u8],
    marks: &mut [u8],
    line: &mut [i16],
) {
    let mut places = answers.chunks_exact_mut(ANSWER);
    for bytes in calls.chunks_exact(CALL) {
        let call = call_at(bytes);
        let answer = carry(sheet, call, marks, line);
        let c = counted(sheet, call, marks, line);
        if let Some(place) = places.next() {
            put_answer(place, answer, c);
        }
    }
}

// Reads the file into a sheet of its own, carries out the calls, and writes the sheet. Answers the length of what was written, -29 where the out buffer is short, and -1 where the file has a fault, which then stands in the place of the first answer.
pub fn engine_run(file: &[u8], calls: &[u8], answers: &mut [u8], out: &mut [u8]) -> i64 {
    let mut memory = [FREE; SLOTS];
    let mut sheet = Sheet::new(&mut memory);
    let mut marks = [0u8; MARK_BYTES];
    let mut line = [0i16; LINE_NAMES];
    if let Err(fault) = read(&mut sheet, file, &mut marks, &mut line) {
        if let Some(place) = answers.chunks_exact_mut(ANSWER).next() {
            put_fault(place, fault);
        }
        return -1;
    }
    carry_all(&mut sheet, calls, answers, &mut marks, &mut line);
    match write(&sheet, out) {
        Ok(length) => length as i64,
        Err(_) => -29,
    }
}
