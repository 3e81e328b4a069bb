// Working buffers that are lent: marks, a byte for each name and for 0, and a line of names.
ghost use Rattle.std.specs.Prelude.{◌≡◌, ◌<◌, length, replicate, pos, slice_set};
ghost use Rattle.turning.specs.Limits.{max_edge, marks_for};
ghost use Rattle.search.specs.Marks.{Within, place, marked};

use turning::limits::{LINE_NAMES, MARK_BYTES, MAX_NAME};

// A byte for each name and one for 0; it is not 0 where the name is marked.
pub type Marks = [u8; MARK_BYTES];

// A place for each name.
pub type Line = [i16; LINE_NAMES];

// What a search is lent.
pub trait Buffer {
    ghost cleared: { Self → Self };

    // Makes all of it zero.
    fn clear(&mut self)
        ensures { self.new ≡ cleared self.old };
}

impl Buffer for Marks {
    ghost cleared = { λ m. replicate (length m) 0 };

    fn clear(&mut self) {
        self.fill(0u8);
    }
}

impl Buffer for Line {
    ghost cleared = { λ l. replicate (length l) (pos 0) };

    fn clear(&mut self) {
        self.fill(0i16);
    }
}

// A lent buffer, all zero again when it is given back.
pub struct Lent<'a, B: Buffer> {
    pub at: &'a mut B,
}

impl<B: Buffer> Drop for Lent<'_, B> {
    fn drop(self)
        ensures { self.exit.0.now ≡ B.cleared self.entry.at.now }
    {
        self.at.clear();
        let Lent { at: _ } = self;
    }
}

// Where the mark of h lies.
pub fn place_of(h: i16) -> usize
    requires { Within max_edge h }
    ensures value { result ≡ place max_edge h }
    ensures within { result < marks_for max_edge }
{
    (h + MAX_NAME) as usize
}

// Whether h is marked.
pub fn is_marked(marks: &Marks, h: i16) -> bool
    requires { Within max_edge h }
    ensures { result ≡ marked max_edge marks.now h }
{
    marks[place_of(h)] != 0
}

// Marks h.
pub fn mark(marks: &mut Marks, h: i16)
    requires { Within max_edge h }
    ensures { marks.new ≡ slice_set marks.old (place max_edge h) 1 }
{
    marks[place_of(h)] = 1;
}
