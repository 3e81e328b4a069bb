// What an accepted file tells of one name.
ghost use Rattle.std.specs.Prelude.{◌≡◌};
ghost use Rattle.reading.specs.Entries.{entry_of};

use chart::point::Point;
use search::marks::place_of;
use strip_questions::names::name_good;
use turning::limits::MARK_BYTES;

// The follower of a held name, its predecessor and the point where it starts.
#[derive(Clone, Copy)]
pub struct Entry {
    pub follower: i16,
    pub predecessor: i16,
    pub point: Point,
}

// What is told of each name, at the place of its mark; nothing of a name that is not held.
pub type Entries = [Option<Entry>; MARK_BYTES];

// The entry of a name, if it is held; a number that is no name has none.
pub(crate) fn entry_of(entries: &Entries, h: i16) -> Option<Entry>
    ensures { result ≡ entry_of entries.now h }
{
    if !name_good(h) {
        return None;
    }
    entries[place_of(h)]
}
