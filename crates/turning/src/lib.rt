// Turnings: names that go in pairs, turned about the vertices where they start, and their loop side.
#![tactic(auto)]

ghost use Rattle.std.specs.Prelude.{◌≡◌, ℤ, pos, neg_ℤ};
ghost use Rattle.turning.specs.Limits.{max_edge};
ghost use Rattle.turning.specs.Turn.{Turn, Lawful, side};
ghost use Rattle.turning.specs.Sides.{side_lawful};

pub mod edges;
pub mod laws;
pub mod limits;
pub mod refusal;

// A set of names +e and -e, closed under negation, with a follower for each and its inverse. Names not held answer 0.
pub trait Turning {
    ghost turn: { Self → Turn };

    ghost lawful: { (x : Self) → Lawful max_edge (turn x) };

    fn holds(&self, h: i16) -> bool
        ensures { result ≡ (turn self.now).held h };

    fn follower(&self, h: i16) -> i16
        ensures { result ≡ (turn self.now).follower h };

    fn predecessor(&self, h: i16) -> i16
        ensures { result ≡ (turn self.now).predecessor h };
}

impl<T: Turning> Turning for &T {
    ghost turn = { λ r. T.Turning.turn r.now };

    ghost lawful = { λ r. T.Turning.lawful r.now };

    fn holds(&self, h: i16) -> bool {
        (**self).holds(h)
    }

    fn follower(&self, h: i16) -> i16 {
        (**self).follower(h)
    }

    fn predecessor(&self, h: i16) -> i16 {
        (**self).predecessor(h)
    }
}

// The same names turned about the loops: the follower is next below, the predecessor previous below.
#[derive(Drop)]
pub struct LoopSide<T> {
    pub below: T,
}

impl<T: Turning> Turning for LoopSide<T> {
    ghost turn = { λ s. side (T.Turning.turn s.below) };

    ghost lawful = { λ s. side_lawful max_edge (T.Turning.turn s.below) (T.Turning.lawful s.below) };

    fn holds(&self, h: i16) -> bool {
        self.below.holds(h)
    }

    fn follower(&self, h: i16) -> i16 {
        if !self.below.holds(h) {
            return 0;
        }
        let opposite = -h;
        self.below.predecessor(opposite)
    }

    fn predecessor(&self, h: i16) -> i16 {
        if !self.below.holds(h) {
            return 0;
        }
        let after = self.below.follower(h);
        -after
    }
}
