// All external rows go at once.
ghost use Rattle.std.specs.Prelude.{◌≡◌};
ghost use Rattle.turning.specs.Limits.{max_edge, slots};
ghost use Rattle.halfedges.specs.View.{seen};
ghost use Rattle.halfedges.specs.Rows.{strips_of, lines_in, Core};
ghost use Rattle.halfedges.specs.Homes.{HomesAlone};

use crate::halfedge::{FREE, Halfedge};
use turning::limits::SLOTS;

// Frees every row that is not home, whatever stood in it: then a row is home or holds nothing.
pub fn drop_external(rows: &mut [Halfedge])
    requires { Core max_edge slots rows.old }
    ensures core { Core max_edge slots rows.new }
    ensures lines { lines_in (seen rows.new) ≡ lines_in (seen rows.old) }
    ensures strips { strips_of (seen rows.new) ≡ strips_of (seen rows.old) }
    ensures alone { HomesAlone slots (seen rows.new) }
{
    for row in rows[..SLOTS].iter_mut() {
        if row.name == 0 || row.follower == 0 {
            *row = Halfedge {
                index: row.index,
                ..FREE
            };
        }
    }
}
