// The vertices of a strip, numbered by the lowest slot of their rounds and kept in the line by name.
ghost use Rattle.std.specs.Prelude.{◌≡◌, ℕ, ◌+◌, ◌<◌, ◌≤◌, true, length, replicate, pos, if◌then◌else◌, Some, slice_set};
ghost use Rattle.turning.specs.Limits.{max_edge, slots as max_slots, line_for};
ghost use Rattle.file.specs.Questions.{named};
ghost use Rattle.file.specs.Strips.{home, opens, met};
ghost use Rattle.file.specs.Views.{told};
ghost use Rattle.seam_questions.specs.Vertices.{Sound, line_at, slot_at, vertex_at, NumberedBelow, Numbered};

use file::view::Strip;
use search::marks::place_of;
use turning::limits::LINE_NAMES;

// The place of a name. The line has none for 0: the names above it move up by one.
pub(crate) fn line_of(name: i16) -> usize
    requires { named max_edge name ≡ true }
    ensures value { result ≡ line_at max_edge name }
    ensures within { result < line_for max_edge }
{
    let place = place_of(name);
    if 1 <= name { place - 1 } else { place }
}

// The place of the name in slot i.
pub fn line_in(s: Strip<'_>, i: u16) -> usize
    requires slot { i < s.slots }
    requires sound { Sound (told s) }
    ensures value { result ≡ slot_at (told s.entry) i }
    ensures within { result < line_for max_edge }
{
    line_of(s.name(i))
}

// The vertex at a place of the line.
pub fn vertex_at(line: &[i16], place: usize) -> Option<u16>
    requires { place < length line.now }
    ensures { result ≡ vertex_at line.now place }
{
    let held = line[place];
    if 1 <= held {
        Some((held - 1) as u16)
    } else {
        None
    }
}

fn put_vertex(line: &mut [i16; LINE_NAMES], place: usize, v: u16)
    requires place { place < length line.old }
    requires few { v < max_slots }
    ensures { line.new ≡ slice_set line.old place (pos (v + 1)) }
{
    line[place] = (v + 1) as i16;
}

// A walk by the strip itself: the slot that is numbered next is the follower of this one. Why it is not one with `mark_round` of a strip's questions stands there.
fn number_round(s: Strip<'_>, i: u16, v: u16, line: &mut [i16; LINE_NAMES])
    requires sound { Sound (told s) }
    requires slot { i < s.slots }
    requires home { home (told s) i ≡ true }
    requires few { v < max_slots }
    ensures { (k : ℕ) → k < s.entry.slots → vertex_at line.new (slot_at (told s.entry) k) ≡ (if met (told s.entry) i s.entry.slots k then Some v else vertex_at line.old (slot_at (told s.entry) k)) }
{
    let mut at = i;
    for n in 0..s.slots {
        put_vertex(line, line_in(s, at), v);
        at = s.follower(at);
        if at == i {
            return;
        }
    }
}

fn opens_round(s: Strip<'_>, i: u16, line: &[i16; LINE_NAMES]) -> bool
    requires sound { Sound (told s) }
    requires slot { i < s.slots }
    requires numbered { NumberedBelow (told s) i line.now }
    ensures { result ≡ opens (told s.entry) i }
{
    s.is_home(i) && vertex_at(line, line_in(s, i)).is_none()
}

fn number_rounds(s: Strip<'_>, line: &mut [i16; LINE_NAMES])
    requires sound { Sound (told s) }
    requires few { s.slots ≤ max_slots }
    requires clean { line.old ≡ replicate (length line.old) (pos 0) }
    ensures { Numbered (told s.entry) line.new }
{
    let mut count = 0;
    for i in 0..s.slots {
        if opens_round(s, i, line) {
            number_round(s, i, count, line);
            count += 1;
        }
    }
}

// Writes the vertices of a strip into the line.
pub fn number_vertices(s: Strip<'_>, line: &mut [i16; LINE_NAMES])
    requires sound { Sound (told s) }
    requires few { s.slots ≤ max_slots }
    ensures { Numbered (told s.entry) line.new }
{
    line.fill(0);
    number_rounds(s, line);
}
