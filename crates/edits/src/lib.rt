// The five edits of any store. Whatever the arguments, a call answers done or one refusal; a refusal changes nothing.
#![tactic(auto)]

ghost use Rattle.std.specs.Prelude.{◌≡◌, true, cond, ℤ, pos, Ok, Err};
ghost use Rattle.turning.specs.Limits.{max_edge, marks_for, line_for};
ghost use Rattle.turning.specs.declared.refusal.Refusal.TheVariants.{LoopsOfOnePiece};
ghost use Rattle.chart.specs.Bounds.{meaning};
ghost use Rattle.search.specs.Buffers.{enough, given_back};
ghost use Rattle.edits.specs.Edits.{starts, sprouts, joins, splits, removes, Done, KeepsFlat, Judged};

use asks::{is_free, is_inside, start_of};
use chart::Store;
use chart::asks::{holds_edge, is_number};
use chart::point::{End, Point};
use joins::join_within;
use turning::limits::{LINE_NAMES, MARK_BYTES};
use turning::refusal::Refusal;

mod asks;
mod joins;

// A new edge between two new points.
pub fn start<S: Store>(store: &mut S, edge: u16, p: Point, q: Point) -> Result<(), Refusal>
    ensures done { Done max_edge (meaning S.Store store.old) (starts edge p q) result (meaning S.Store store.new) }
    ensures flat { KeepsFlat max_edge (meaning S.Store store.old) (meaning S.Store store.new) }
{
    store.placed();
    if !is_number(edge) {
        return Err(Refusal::NumberOutOfRange);
    }
    if holds_edge(store, edge) {
        return Err(Refusal::NumberInUse);
    }
    if !is_free(store, p) || !is_free(store, q) {
        return Err(Refusal::PointTaken);
    }
    if p == q {
        return Err(Refusal::SameEnds);
    }
    let done = store.hang(edge, End::new(p), End::new(q));
    done.then_some(()).ok_or(Refusal::NoRoom)
}

// A new edge from the start of the corner, directly after it, to a new point.
pub fn sprout<S: Store>(store: &mut S, edge: u16, corner: i16, p: Point) -> Result<(), Refusal>
    ensures done { Done max_edge (meaning S.Store store.old) (sprouts edge corner p) result (meaning S.Store store.new) }
    ensures flat { KeepsFlat max_edge (meaning S.Store store.old) (meaning S.Store store.new) }
{
    store.placed();
    if !is_number(edge) {
        return Err(Refusal::NumberOutOfRange);
    }
    if holds_edge(store, edge) {
        return Err(Refusal::NumberInUse);
    }
    let Some(at) = start_of(store, corner) else {
        return Err(Refusal::NotThere);
    };
    if !is_free(store, p) {
        return Err(Refusal::PointTaken);
    }
    let done = store.hang(edge, End::after(at, corner), End::new(p));
    done.then_some(()).ok_or(Refusal::NoRoom)
}

// A new edge between the starts of the corners c and d, directly after each. The lent buffers come back zero over the lengths that a search needs, unless they are refused as too short.
pub fn join<S: Store>(
    store: &mut S,
    edge: u16,
    c: i16,
    d: i16,
    marks: &mut [u8],
    line: &mut [i16],
) -> Result<(), Refusal>
    ensures done { Done max_edge (meaning S.Store store.old) (joins edge c d marks.old line.old) result (meaning S.Store store.new) }
    ensures flat { KeepsFlat max_edge (meaning S.Store store.old) (meaning S.Store store.new) }
    ensures judged { Judged max_edge (meaning S.Store store.old) (joins edge c d marks.old line.old) (result ≡ Err LoopsOfOnePiece) }
    ensures zero { marks.new ≡ given_back (enough max_edge marks.old line.old) (marks_for max_edge) 0 marks.old }
    ensures empty { line.new ≡ given_back (enough max_edge marks.old line.old) (line_for max_edge) (pos 0) line.old }
{
    store.placed();
    let short = Refusal::ShortBuffers;
    let Some(marks) = marks.first_chunk_mut::<MARK_BYTES>() else {
        return Err(short);
    };
    let Some(line) = line.first_chunk_mut::<LINE_NAMES>() else {
        return Err(short);
    };
    join_within(store, edge, c, d, marks, line)
}

// Cleaves an edge at a new point: the western part keeps its number, the eastern part is a new edge.
pub fn split<S: Store>(store: &mut S, edge: u16, east: u16, p: Point) -> Result<(), Refusal>
    ensures done { Done max_edge (meaning S.Store store.old) (splits edge east p) result (meaning S.Store store.new) }
    ensures flat { KeepsFlat max_edge (meaning S.Store store.old) (meaning S.Store store.new) }
{
    store.placed();
    if !is_number(east) {
        return Err(Refusal::NumberOutOfRange);
    }
    if holds_edge(store, east) {
        return Err(Refusal::NumberInUse);
    }
    if !holds_edge(store, edge) {
        return Err(Refusal::NotThere);
    }
    if !is_free(store, p) {
        return Err(Refusal::PointTaken);
    }
    if !is_inside(store, edge, p) {
        return Err(Refusal::NotInside);
    }
    let done = store.cleave(edge, east, p);
    done.then_some(()).ok_or(Refusal::NoRoom)
}

// Lifts an edge.
pub fn remove<S: Store>(store: &mut S, edge: u16) -> Result<(), Refusal>
    ensures done { Done max_edge (meaning S.Store store.old) (removes edge) result (meaning S.Store store.new) }
    ensures flat { KeepsFlat max_edge (meaning S.Store store.old) (meaning S.Store store.new) }
{
    store.placed();
    let done = store.lift(edge);
    done.then_some(()).ok_or(Refusal::NotThere)
}
