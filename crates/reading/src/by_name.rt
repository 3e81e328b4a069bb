// The line work that an accepted file tells, as a chart.
ghost use Rattle.std.specs.Prelude.{◌≡◌};
ghost use Rattle.turning.specs.Limits.{max_edge};
ghost use Rattle.chart.specs.declared.point.Point.{Point};
ghost use Rattle.laws.specs.Keeps.{Sound};
ghost use Rattle.reading.specs.Entries.{lines_by, lawful_of};

use crate::entry::{Entries, entry_of};
use chart::Chart;
use chart::point::Point;
use turning::Turning;

// The entries of all names, which tell line work that is lawful and placed.
#[derive(Drop)]
pub struct Told<'a> {
    pub(crate) names: &'a Entries,
    ghost ok: { ∥ Sound max_edge (lines_by names.now) ∥₁ },
}

impl Turning for Told<'_> {
    ghost turn = { λ t. (lines_by t.names.now).turn };

    ghost lawful = { λ t. lawful_of t.names.now t.ok };

    fn holds(&self, h: i16) -> bool {
        entry_of(self.names, h).is_some()
    }

    fn follower(&self, h: i16) -> i16 {
        entry_of(self.names, h).map_or(0, |e| e.follower)
    }

    fn predecessor(&self, h: i16) -> i16 {
        entry_of(self.names, h).map_or(0, |e| e.predecessor)
    }
}

impl Chart for Told<'_> {
    ghost points = { λ t. (lines_by t.names.now).points };

    fn point(&self, h: i16) -> Option<Point> {
        entry_of(self.names, h).map(|e| e.point)
    }

    fn placed(&self) {}
}
