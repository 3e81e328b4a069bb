// The two sides of a strip: which names are looked for there, and which strip lies there.
ghost use Rattle.std.specs.Prelude.{◌≡◌, ◌<◌, ◌≤◌};
ghost use Rattle.turning.specs.Limits.{max_strips};
ghost use Rattle.seam_questions.specs.Sides.{on_side, west_of, east_of};

// Is the name looked for on this side?
pub fn is_on_side(side: bool, name: i16) -> bool
    ensures { result ≡ on_side side name }
{
    side == (1 <= name)
}

// The neighbour of strip j to the west.
pub fn west_of(j: u16) -> Option<u16>
    ensures { result ≡ west_of j }
{
    j.checked_sub(1)
}

// The neighbour of strip j to the east, of so many strips.
pub fn east_of(count: u16, j: u16) -> Option<u16>
    requires few { count ≤ max_strips }
    requires strip { j < count }
    ensures { result ≡ east_of count j }
{
    if j + 1 < count { Some(j + 1) } else { None }
}
