// Walks about a vertex: by follower from one name to another, and once round.
ghost use Rattle.std.specs.Prelude.{◌≡◌, true};
ghost use Rattle.turning.specs.Limits.{max_edge};
ghost use Rattle.turning.specs.Turn.{Turn};
ghost use Rattle.turning.specs.Counts.{round_length};
ghost use Rattle.search.specs.Lengths.{Steps};

use turning::Turning;

// How many followers lead from h to k, if they do.
pub fn steps<T: Turning>(t: &T, h: i16, k: i16) -> Option<u16>
    requires { (T.Turning.turn t.now).held h ≡ true }
    ensures { Steps (T.Turning.turn t.now).follower h k result }
{
    let mut x = h;
    let mut count: u16 = 0;
    while x != k {
        x = t.follower(x);
        if x == h {
            return None;
        }
        count += 1;
    }
    Some(count)
}

// How many names lie about the vertex where h starts.
pub fn round_length<T: Turning>(t: &T, h: i16) -> u16
    requires { (T.Turning.turn t.now).held h ≡ true }
    ensures { result ≡ round_length max_edge (T.Turning.turn t.now) h }
{
    let mut count = 1;
    let mut x = t.follower(h);
    while x != h {
        x = t.follower(x);
        count += 1;
    }
    count
}
