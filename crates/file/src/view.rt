// The part of a file that holds one strip, where the caller holds it: names, followers, x, y.
ghost use Rattle.std.specs.Prelude.{◌≡◌, ◌+◌, ◌*◌, ◌<◌, ◌≤◌, length};

use crate::le::{read_i16, read_i32, read_u16};
use chart::point::Point;

// The follower of an external slot: none.
pub const NONE: u16 = 65535;

// How many vertices and slots a strip has.
#[derive(Clone, Copy, Default)]
pub struct Sizes {
    pub vertices: u16,
    pub slots: u16,
}

impl Sizes {
    // How many bytes the arrays of the strip take.
    pub fn bytes(self) -> usize
        ensures { result ≡ 4 * self.slots + 8 * self.vertices }
    {
        4 * self.slots as usize + 8 * self.vertices as usize
    }
}

// The arrays of a strip, which are all there, with its sizes.
#[derive(Clone, Copy)]
pub struct Strip<'a> {
    pub bytes: &'a [u8],
    pub slots: u16,
    pub vertices: u16,
    pub ghost all_there: { 4 * slots + 8 * vertices ≤ length bytes.now },
}

impl Strip<'_> {
    ghost use Rattle.file.specs.Strips.{home};
    ghost use Rattle.file.specs.Views.{told};

    // The name in slot i.
    pub fn name(&self, i: u16) -> i16
        requires { i < self.now.slots }
        ensures { result ≡ (told self.now).name i }
    {
        read_i16(self.bytes, 2 * i as usize)
    }

    // The follower in slot i.
    pub fn follower(&self, i: u16) -> u16
        requires { i < self.now.slots }
        ensures { result ≡ (told self.now).follower i }
    {
        read_u16(self.bytes, 2 * self.slots as usize + 2 * i as usize)
    }

    // Is slot i home?
    pub fn is_home(&self, i: u16) -> bool
        requires { i < self.now.slots }
        ensures { result ≡ home (told self.now) i }
    {
        self.follower(i) != NONE
    }

    // The point of vertex k.
    pub fn point(&self, k: u16) -> Point
        requires { k < self.now.vertices }
        ensures { result ≡ (told self.now).point k }
    {
        let at = 4 * self.slots as usize + 4 * k as usize;
        let x = read_i32(self.bytes, at);
        let y = read_i32(self.bytes, at + 4 * self.vertices as usize);
        Point { x, y }
    }
}
