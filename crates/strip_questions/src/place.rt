// The marks of the names of a strip.
ghost use Rattle.std.specs.Prelude.{◌≡◌, ℕ, ◌<◌, Bool, true, ◌&&◌, ℤ, if◌then◌else◌, slice_index};
ghost use Rattle.turning.specs.Limits.{max_edge, marks_for};
ghost use Rattle.file.specs.Questions.{named, name_good};
ghost use Rattle.file.specs.Strips.{names};
ghost use Rattle.file.specs.Views.{told};
ghost use Rattle.search.specs.Marks.{place as mark_at};

use file::view::Strip;
use search::marks::place_of;
use turning::limits::MARK_BYTES;

// The place of the name in slot i: `place_of`, of a name that question 6 has passed.
pub fn place_in(s: Strip<'_>, i: u16) -> usize
    requires slot { i < s.slots }
    requires named { name_good max_edge (told s) i ≡ true }
    ensures value { result ≡ mark_at max_edge ((told s.entry).name i) }
    ensures within { result < marks_for max_edge }
{
    place_of(s.name(i))
}

// Marks the names of the strip that are wanted.
pub fn mark_names<F: Fn(i16) -> bool>(s: Strip<'_>, wanted: F, marks: &mut [u8; MARK_BYTES])
    requires callable { (h : ℤ) → F.pre wanted h }
    requires named { (k : ℕ) → k < s.slots → name_good max_edge (told s) k ≡ true }
    ensures { (yes : ℤ → Bool) → ((h : ℤ) (b : Bool) → F.post wanted h b → b ≡ yes h) → (z : ℤ) → named max_edge z ≡ true → slice_index marks.new (mark_at max_edge z) ≡ (if yes z && names (told s.entry) s.entry.slots z then 1 else slice_index marks.old (mark_at max_edge z)) }
{
    for i in 0..s.slots {
        if wanted(s.name(i)) {
            marks[place_in(s, i)] = 1;
        }
    }
}
