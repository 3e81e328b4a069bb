// Where a halfedge is at home, asked in any strip that its edge runs through.
ghost use Rattle.std.specs.Prelude.{◌≡◌, ◌&&◌, [], ◌∷◌, min, max, nat_le};
ghost use Rattle.turning.specs.Refusals.{asked};
ghost use Rattle.turning.specs.declared.refusal.Refusal.TheVariants.{NotThere};
ghost use Rattle.halfedges.specs.View.{seen};
ghost use Rattle.halfedges.specs.Rows.{lines_in};
ghost use Rattle.strips.specs.Borders.{apart, strip_count};
ghost use Rattle.strips.specs.Answers.{told_home};

use crate::borders::{Borders, strip_count, strip_of};
use crate::sheet::Sheet;
use chart::Chart;
use turning::Turning;
use turning::refusal::Refusal;

// The strip where a halfedge starts, and the number of borders that lie between there and the strip that was asked.
#[derive(Clone, Copy, PartialEq, Eq, Debug)]
pub struct Home {
    pub strip: u16,
    pub crossed: u16,
}

// The home in strip `here` of a halfedge whose edge goes on to strip `there`, asked in a strip between.
fn home_between(strip: u16, here: u16, there: u16) -> Result<Home, Refusal>
    ensures { result ≡ asked ((nat_le (min here there) strip && nat_le strip (max here there), NotThere) ∷ []) (record { strip = here; crossed = apart strip here }) }
{
    if !(here.min(there)..=here.max(there)).contains(&strip) {
        return Err(Refusal::NotThere);
    }
    Ok(Home {
        strip: here,
        crossed: strip.abs_diff(here),
    })
}

impl<'a> Sheet<'a> {
    // How many strips the sheet has.
    pub fn strips(&self) -> u16
        ensures { result ≡ strip_count self.now.borders.items }
    {
        strip_count(&self.borders)
    }

    // Where the sheet is cut. By value: the type says that there are at most 31, which a slice would not, and a caller may change the sheet while it holds them.
    pub fn borders(&self) -> Borders
        ensures { result ≡ self.now.borders }
    {
        self.borders
    }

    // The home of h, asked in a strip that has a slot of h.
    pub fn home(&self, strip: u16, h: i16) -> Result<Home, Refusal>
        ensures { result ≡ told_home self.now.borders.items (lines_in (seen self.now.rows.at.now)) strip h }
    {
        if !self.holds(h) {
            return Err(Refusal::NotThere);
        }
        let from = self.point(h).ok_or(Refusal::NotThere)?;
        let to = self.point(-h).ok_or(Refusal::NotThere)?;
        let here = strip_of(&self.borders, from.x);
        let there = strip_of(&self.borders, to.x);
        home_between(strip, here, there)
    }
}
