// A sheet as the bytes of a file: the number of strips, their sizes, the borders, and then the strips.
ghost use Rattle.std.specs.Prelude.{◌≡◌, ◌+◌, ◌*◌, ◌^◌, ◌≤◌, [], ◌∷◌, length, nat_le};
ghost use Rattle.std.specs.List.{flat_map};
ghost use Rattle.turning.specs.Limits.{max_edge, max_strips};
ghost use Rattle.turning.specs.Refusals.{asked};
ghost use Rattle.turning.specs.declared.refusal.Refusal.TheVariants.{ShortOut};
ghost use Rattle.chart.specs.Bounds.{lines};
ghost use Rattle.halfedges.specs.View.{seen};
ghost use Rattle.halfedges.specs.Rows.{lines_in};
ghost use Rattle.strips.specs.Borders.{strip_count};
ghost use Rattle.writing.specs.Written.{i32_bytes, written};
ghost use Rattle.writing.specs.Lays.{all_sizes, sizes_bytes, head_bytes, body_bytes, laid_over};

use crate::arrays::write_strip;
use crate::gather::measure;
use crate::words::write_each;
use arrayvec::ArrayVec;
use chart::Chart;
use file::view::Sizes;
use strips::borders::{Borders, strip_count};
use strips::sheet::Sheet;
use turning::Turning;
use turning::limits::MAX_STRIPS;
use turning::refusal::Refusal;

// The sizes of strips, at most as many as a sheet may have. They lie in the value itself: nothing is allocated.
type AllSizes = ArrayVec<Sizes, MAX_STRIPS>;

// Puts the sizes of all strips into an empty list; answers how many bytes the strips take.
fn measure_all<C: Chart>(chart: &C, borders: &Borders, sizes: &mut AllSizes) -> usize
    requires { sizes.old.items ≡ [] }
    ensures sizes { sizes.new.items ≡ all_sizes max_edge borders.now.items (lines C.Chart chart.now) }
    ensures long { result ≡ length (body_bytes max_edge borders.now.items (lines C.Chart chart.now)) }
    ensures few { result ≤ 2 ^ 25 }
{
    let mut total = 0;
    for j in 0..strip_count(borders) {
        let own = measure(chart, borders, j + 1);
        sizes.push(own);
        total += own.bytes();
    }
    total
}

// Writes the sizes of the strips, four bytes each.
fn write_sizes(part: &mut [u8], sizes: &[Sizes])
    requires { length part.old ≡ 4 * length sizes.now }
    ensures { part.new ≡ flat_map sizes_bytes sizes.now }
{
    write_each(
        part,
        sizes,
        4,
        |size: Sizes|
            ensures { result ≡ sizes_bytes size }
        {
            let [a, b] = size.vertices.to_le_bytes();
            let [c, d] = size.slots.to_le_bytes();
            [a, b, c, d]
        },
    );
}

// Writes the borders, four bytes each.
fn write_borders(part: &mut [u8], borders: &Borders)
    requires { length part.old ≡ 4 * length borders.now.items }
    ensures { part.new ≡ flat_map i32_bytes borders.now.items }
{
    write_each(
        part,
        borders.as_slice(),
        4,
        |x: i32|
            ensures { result ≡ i32_bytes x }
        { x.to_le_bytes() },
    );
}

// Writes what stands before the strips.
fn write_head(part: &mut [u8], borders: &Borders, sizes: &[Sizes])
    requires { length part.old ≡ 2 + 4 * length sizes.now + 4 * length borders.now.items }
    ensures { part.new ≡ head_bytes borders.now.items sizes.now }
{
    let count = strip_count(borders).to_le_bytes();
    let from = 2 + 4 * sizes.len();
    let end = part.len();
    part[0..2].copy_from_slice(&count);
    write_sizes(&mut part[2..from], sizes);
    write_borders(&mut part[from..end], borders);
}

// Writes the strips, each over its own part.
fn write_strips<C: Chart>(part: &mut [u8], chart: &C, borders: &Borders, sizes: &[Sizes])
    requires sizes { sizes.now ≡ all_sizes max_edge borders.now.items (lines C.Chart chart.now) }
    requires few { length sizes.now ≤ max_strips }
    requires long { length part.old ≡ length (body_bytes max_edge borders.now.items (lines C.Chart chart.now)) }
    ensures { part.new ≡ body_bytes max_edge borders.now.items (lines C.Chart chart.now) }
{
    let mut at = 0;
    for (j, own) in sizes.iter().enumerate() {
        let end = at + own.bytes();
        write_strip(&mut part[at..end], chart, borders, j as u16 + 1);
        at = end;
    }
}

// Writes any chart, cut at the borders.
fn write_chart<C: Chart>(chart: &C, borders: &Borders, out: &mut [u8]) -> Result<usize, Refusal>
    ensures answer { result ≡ asked ((nat_le (length (written max_edge borders.now.items (lines C.Chart chart.now))) (length out.old), ShortOut) ∷ []) (length (written max_edge borders.now.items (lines C.Chart chart.now))) }
    ensures bytes { out.new ≡ laid_over (written max_edge borders.now.items (lines C.Chart chart.now)) out.old }
{
    let mut sizes = AllSizes::new();
    let body = measure_all(chart, borders, &mut sizes);
    let head = 2 + 4 * sizes.len() + 4 * borders.as_slice().len();
    let end = head + body;
    if out.len() < end {
        return Err(Refusal::ShortOut);
    }
    write_head(&mut out[0..head], borders, sizes.as_slice());
    write_strips(&mut out[head..end], chart, borders, sizes.as_slice());
    Ok(end)
}

// Writes the sheet from the start of the buffer, and answers how many bytes it took; a buffer that is too short is left as it is.
pub fn write(sheet: &Sheet, out: &mut [u8]) -> Result<usize, Refusal>
    ensures answer { result ≡ asked ((nat_le (length (written max_edge sheet.now.borders.items (lines_in (seen sheet.now.rows.at.now)))) (length out.old), ShortOut) ∷ []) (length (written max_edge sheet.now.borders.items (lines_in (seen sheet.now.rows.at.now)))) }
    ensures bytes { out.new ≡ laid_over (written max_edge sheet.now.borders.items (lines_in (seen sheet.now.rows.at.now))) out.old }
{
    let borders = sheet.borders();
    write_chart(sheet, &borders, out)
}
