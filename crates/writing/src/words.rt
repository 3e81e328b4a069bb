// Lists that are written word by word.
ghost use Rattle.std.specs.Prelude.{◌≡◌, ◌*◌, length};
ghost use Rattle.std.specs.List.{All};
ghost use Rattle.writing.specs.Words.{WritesEach};

use std::convert::AsSlice;

// Writes the word of each item, all of one size, one after the other.
pub(crate) fn write_each<T: Copy, W: AsSlice<u8> + Drop, F: Fn(T) -> W>(
    part: &mut [u8],
    items: &[T],
    size: usize,
    word: F,
)
    requires long { length part.old ≡ size * length items.now }
    requires callable { All (F.pre word) items.now }
    requires sized { All (λ x. (w : _) → F.post word x w → length (W.items w) ≡ size) items.now }
    ensures { WritesEach (λ x bytes. (w : _) × (F.post word x w × (bytes ≡ W.items w))) items.now part.new }
{
    // The library's chunks that are written say nothing of what the whole ends as: so the part of each word is lent by its place.
    for (k, x) in items.iter().enumerate() {
        let bytes = word(*x);
        part[size * k..size * k + size].copy_from_slice(bytes.as_slice());
    }
}
