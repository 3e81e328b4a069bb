// The strips and borders of a file whose sizes are right.
ghost use Rattle.std.specs.Prelude.{◌≡◌, ◌+◌, ◌-◌, ◌*◌, ◌<◌, ◌≤◌, length};
ghost use Rattle.turning.specs.Limits.{slots as max_slots, max_strips};
ghost use Rattle.file.specs.Layout.{strips, strip, border, western, eastern};
ghost use Rattle.file.specs.Shapes.{Shaped};
ghost use Rattle.file.specs.Judged.{Judged};

use crate::reader::Reader;
use crate::view::Strip;

// Border k, from 0, of a file that tells as many strips.
pub fn border_at(bytes: &[u8], count: u16, k: u16) -> i32
    requires count { count ≡ strips bytes.now }
    requires few { count ≤ max_strips }
    requires between { k + 1 < count }
    requires there { 2 + 4 * count + 4 * (count - 1) ≤ length bytes.now }
    ensures { result ≡ border bytes.now k }
{
    Reader::new(bytes, 2 + 4 * count as usize + 4 * k as usize).border()
}

// A file whose questions as a whole are answered yes, where the caller holds it, and how many strips it has.
#[derive(Clone, Copy)]
pub struct File<'a> {
    pub bytes: &'a [u8],
    pub count: u16,
    pub ghost shaped: { Shaped bytes.now count },
}

impl<'a> File<'a> {
    ghost use Rattle.file.specs.Views.{told};

    // Strip j, from 0, where the caller holds it.
    pub fn strip(&self, j: u16) -> Strip<'a>
        requires { j < self.now.count }
        ensures told { told result ≡ strip self.now.bytes.now j }
        ensures few { result.slots ≤ max_slots }
        ensures fewer { result.vertices ≤ result.slots }
    {
        let count = self.count as usize;
        let mut sizes = Reader::new(self.bytes, 2);
        let mut at = 2 + 4 * count + 4 * (count - 1);
        for k in 0..j {
            at += sizes.sizes().bytes();
        }
        let mut arrays = Reader::new(self.bytes, at);
        arrays.strip(sizes.sizes())
    }

    fn border(&self, k: u16) -> i32
        requires { k + 1 < self.now.count }
        ensures { result ≡ border self.now.bytes.now k }
    {
        border_at(self.bytes, self.count, k)
    }

    // The western border of strip j, if it has one.
    pub fn western_border(&self, j: u16) -> Option<i32>
        requires { j < self.now.count }
        ensures { result ≡ western self.now.bytes.now j }
    {
        let k = j.checked_sub(1)?;
        Some(self.border(k))
    }

    // The eastern border of strip j, if it has one.
    pub fn eastern_border(&self, j: u16) -> Option<i32>
        requires { j < self.now.count }
        ensures { result ≡ eastern self.now.bytes.now j }
    {
        if j + 1 < self.count {
            Some(self.border(j))
        } else {
            None
        }
    }
}

// A file whose strips are judged too: their questions are answered yes.
#[derive(Clone, Copy)]
pub struct JudgedFile<'a> {
    pub file: File<'a>,
    pub ghost judged: { Judged file.bytes.now file.count },
}
