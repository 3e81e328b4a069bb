// The arrays of one strip, each over the whole of its own part of the file.
ghost use Rattle.std.specs.Prelude.{◌≡◌, ◌+◌, ◌*◌, ◌≤◌, true, map, length, ℤ};
ghost use Rattle.std.specs.List.{flat_map};
ghost use Rattle.turning.specs.Limits.{max_edge, line_for};
ghost use Rattle.flat.specs.Orbits.{◌∈◌, Distinct};
ghost use Rattle.chart.specs.Bounds.{lines};
ghost use Rattle.search.specs.Marks.{Within};
ghost use Rattle.writing.specs.Written.{u16_bytes, i16_bytes, i32_bytes, names_in, follower_slot, start_of, points_in, strip_bytes};
ghost use Rattle.writing.specs.Gathers.{Slotted};

use crate::gather::{Names, gather, starts_in};
use crate::words::write_each;
use chart::Chart;
use chart::point::Point;
use file::view::NONE;
use search::marks::place_of;
use strips::borders::Borders;
use turning::Turning;
use turning::limits::MARK_BYTES;

const ORIGIN: Point = Point { x: 0, y: 0 };

// For each name, at the place of its mark, the slot where it stands.
type Slots = [u16; MARK_BYTES];

// The point where a halfedge starts, or the origin where it starts nowhere.
fn start_of<C: Chart>(chart: &C, h: i16) -> Point
    ensures { result ≡ start_of (lines C.Chart chart.now) h }
{
    chart.point(h).unwrap_or(ORIGIN)
}

// Notes for each name where in the list it stands.
fn note_slots(names: &[i16], slots: &mut Slots)
    requires within { (h : ℤ) → h ∈ names.now → Within max_edge h }
    requires apart { Distinct names.now }
    requires few { length names.now ≤ line_for max_edge }
    ensures { Slotted max_edge names.now slots.new }
{
    for (k, h) in names.iter().enumerate() {
        slots[place_of(*h)] = k as u16;
    }
}

// The slot that follows that of h, or none where h starts in another strip.
fn follower_slot<C: Chart>(chart: &C, borders: &Borders, strip: u16, h: i16, slots: &Slots) -> u16
    requires slotted { Slotted max_edge (names_in max_edge borders.now.items (lines C.Chart chart.now) strip) slots.now }
    requires held { (C.Turning.turn chart.now).held h ≡ true }
    ensures { result ≡ follower_slot max_edge borders.now.items (lines C.Chart chart.now) strip h }
{
    chart.placed();
    if !starts_in(chart, borders, strip, h) {
        return NONE;
    }
    slots[place_of(chart.follower(h))]
}

// Writes the names, two bytes each.
fn write_names(part: &mut [u8], names: &[i16])
    requires { length part.old ≡ 2 * length names.now }
    ensures { part.new ≡ flat_map i16_bytes names.now }
{
    write_each(
        part,
        names,
        2,
        |h: i16|
            ensures { result ≡ i16_bytes h }
        { h.to_le_bytes() },
    );
}

// Writes the slot that follows each name's, two bytes each.
fn write_followers<C: Chart>(
    part: &mut [u8],
    chart: &C,
    borders: &Borders,
    strip: u16,
    names: &[i16],
    slots: &Slots,
)
    requires long { length part.old ≡ 2 * length names.now }
    requires names { names.now ≡ names_in max_edge borders.now.items (lines C.Chart chart.now) strip }
    requires slots { Slotted max_edge names.now slots.now }
    ensures { part.new ≡ flat_map (λ h. u16_bytes (follower_slot max_edge borders.now.items (lines C.Chart chart.now) strip h)) names.now }
{
    write_each(
        part,
        names,
        2,
        |h: i16|
            requires slotted { Slotted max_edge (names_in max_edge borders.now.items (lines C.Chart chart.now) strip) slots.now }
            requires held { (C.Turning.turn chart.now).held h ≡ true }
            ensures { result ≡ u16_bytes (follower_slot max_edge borders.entry.now.items (lines C.Chart chart.entry.now) strip h) }
        { follower_slot(chart, borders, strip, h, slots).to_le_bytes() },
    );
}

// Writes the arrays of a strip with these names, and with a vertex where each of the first ones starts.
fn write_arrays<C: Chart>(
    part: &mut [u8],
    chart: &C,
    borders: &Borders,
    strip: u16,
    names: &[i16],
    firsts: &[i16],
)
    requires names { names.now ≡ names_in max_edge borders.now.items (lines C.Chart chart.now) strip }
    requires firsts { map (start_of (lines C.Chart chart.now)) firsts.now ≡ points_in max_edge borders.now.items (lines C.Chart chart.now) strip }
    requires few { length names.now ≤ line_for max_edge }
    requires long { length part.old ≡ 4 * length names.now + 8 * length firsts.now }
    ensures { part.new ≡ strip_bytes max_edge borders.now.items (lines C.Chart chart.now) strip }
{
    let mut slots: Slots = [0; MARK_BYTES];
    note_slots(names, &mut slots);
    let followers = 2 * names.len();
    let xs = 4 * names.len();
    let ys = xs + 4 * firsts.len();
    let end = part.len();
    write_names(&mut part[0..followers], names);
    write_followers(
        &mut part[followers..xs],
        chart,
        borders,
        strip,
        names,
        &slots,
    );
    write_each(
        &mut part[xs..ys],
        firsts,
        4,
        |h: i16|
            ensures { result ≡ i32_bytes (start_of (lines C.Chart chart.entry.now) h).x }
        { start_of(chart, h).x.to_le_bytes() },
    );
    write_each(
        &mut part[ys..end],
        firsts,
        4,
        |h: i16|
            ensures { result ≡ i32_bytes (start_of (lines C.Chart chart.entry.now) h).y }
        { start_of(chart, h).y.to_le_bytes() },
    );
}

// Writes the arrays of one strip.
pub(crate) fn write_strip<C: Chart>(part: &mut [u8], chart: &C, borders: &Borders, strip: u16)
    requires { length part.old ≡ length (strip_bytes max_edge borders.now.items (lines C.Chart chart.now) strip) }
    ensures { part.new ≡ strip_bytes max_edge borders.now.items (lines C.Chart chart.now) strip }
{
    let mut names = Names::new();
    let mut firsts = Names::new();
    gather(chart, borders, strip, &mut names, &mut firsts);
    write_arrays(
        part,
        chart,
        borders,
        strip,
        names.as_slice(),
        firsts.as_slice(),
    );
}
