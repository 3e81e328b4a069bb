// A place in a file, from which sizes, borders and the arrays of strips are taken in turn, without a copy.
ghost use Rattle.std.specs.Prelude.{◌≡◌, ◌+◌, ◌*◌, ◌≤◌, length};
ghost use Rattle.std.specs.List.{between};
ghost use Rattle.file.specs.Bytes.{u16_at, i32_at};

use crate::le::{read_i32, read_u16};
use crate::view::{Sizes, Strip};

// The bytes of a file, and the place that is read next.
#[derive(Drop)]
pub struct Reader<'a> {
    bytes: &'a [u8],
    at: usize,
}

impl<'a> Reader<'a> {
    // A reader at a place of the file.
    pub fn new(bytes: &'a [u8], at: usize) -> Reader<'a>
        ensures bytes { result.bytes.now ≡ bytes.now }
        ensures at { result.at ≡ at }
    {
        Reader { bytes, at }
    }

    // The sizes of a strip that stand here; the reader goes on to the next.
    pub fn sizes(&mut self) -> Sizes
        requires { self.old.at + 4 ≤ length self.old.bytes.now }
        ensures vertices { result.vertices ≡ u16_at self.old.bytes.now self.old.at }
        ensures slots { result.slots ≡ u16_at self.old.bytes.now (self.old.at + 2) }
        ensures at { self.new.at ≡ self.old.at + 4 }
        ensures bytes { self.new.bytes.now ≡ self.old.bytes.now }
    {
        let from = self.at;
        let vertices = read_u16(self.bytes, from);
        let slots = read_u16(self.bytes, from + 2);
        self.at = from + 4;
        Sizes { vertices, slots }
    }

    // The border that stands here; the reader goes on to the next.
    pub fn border(&mut self) -> i32
        requires { self.old.at + 4 ≤ length self.old.bytes.now }
        ensures value { result ≡ i32_at self.old.bytes.now self.old.at }
        ensures at { self.new.at ≡ self.old.at + 4 }
        ensures bytes { self.new.bytes.now ≡ self.old.bytes.now }
    {
        let from = self.at;
        let border = read_i32(self.bytes, from);
        self.at = from + 4;
        border
    }

    // The arrays of a strip of these sizes that stand here; the reader goes on to the next.
    pub fn strip(&mut self, sizes: Sizes) -> Strip<'a>
        requires { self.old.at + (4 * sizes.slots + 8 * sizes.vertices) ≤ length self.old.bytes.now }
        ensures value { result.bytes.now ≡ between self.old.at (self.old.at + (4 * sizes.slots + 8 * sizes.vertices)) self.old.bytes.now }
        ensures len { length result.bytes.now ≡ 4 * sizes.slots + 8 * sizes.vertices }
        ensures slots { result.slots ≡ sizes.slots }
        ensures vertices { result.vertices ≡ sizes.vertices }
        ensures at { self.new.at ≡ self.old.at + (4 * sizes.slots + 8 * sizes.vertices) }
        ensures bytes { self.new.bytes.now ≡ self.old.bytes.now }
    {
        let from = self.at;
        let end = from + sizes.bytes();
        let bytes = &self.bytes[from..end];
        self.at = end;
        Strip {
            bytes,
            slots: sizes.slots,
            vertices: sizes.vertices,
        }
    }
}
