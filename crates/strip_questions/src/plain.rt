// Questions 8, 11 and 12: followers are slots or none; points are in range, in the strip, and differ.
ghost use Rattle.std.specs.Prelude.{◌≡◌, ◌<◌};
ghost use Rattle.file.specs.Places.{answered};
ghost use Rattle.file.specs.Questions.{follower_good, not_west_of, west_of, lies_in, point_new};
ghost use Rattle.file.specs.Verdict.{q8, q11, q12};
ghost use Rattle.file.specs.Views.{told};

use chart::point::Point;
use file::asking::{ask_each, first_no};
use file::questions::{StripFault, StripQuestion};
use file::view::{NONE, Strip};

fn follower_good(s: Strip<'_>, i: u16) -> bool
    requires { i < s.slots }
    ensures { result ≡ follower_good (told s.entry) i }
{
    let follower = s.follower(i);
    follower < s.slots || follower == NONE
}

// Question 8, of one strip.
pub fn followers_good(s: Strip<'_>, number: u16) -> Result<(), StripFault>
    ensures { result ≡ answered (q8 (told s.entry) number) tt }
{
    ask_each(StripQuestion::Followers, number, s.slots, |i| {
        follower_good(s, i)
    })
}

fn is_not_west_of(border: Option<i32>, x: i32) -> bool
    ensures { result ≡ not_west_of border x }
{
    border.is_none_or(|a| a <= x)
}

fn is_west_of(border: Option<i32>, x: i32) -> bool
    ensures { result ≡ west_of border x }
{
    border.is_none_or(|a| x < a)
}

fn point_good(west: Option<i32>, east: Option<i32>, p: Point) -> bool
    ensures { result ≡ lies_in west east p }
{
    p.is_on_sheet() && is_not_west_of(west, p.x) && is_west_of(east, p.x)
}

// Question 11, of one strip.
pub fn points_good(
    s: Strip<'_>,
    number: u16,
    west: Option<i32>,
    east: Option<i32>,
) -> Result<(), StripFault>
    ensures { result ≡ answered (q11 west east (told s.entry) number) tt }
{
    ask_each(StripQuestion::Points, number, s.vertices, |k| {
        point_good(west, east, s.point(k))
    })
}

fn point_new(s: Strip<'_>, k: u16) -> bool
    requires { k < s.vertices }
    ensures { result ≡ point_new (told s.entry) k }
{
    let here = s.point(k);
    first_no(k, |m| s.point(m) != here).is_none()
}

// Question 12, of one strip.
pub fn points_new(s: Strip<'_>, number: u16) -> Result<(), StripFault>
    ensures { result ≡ answered (q12 (told s.entry) number) tt }
{
    ask_each(StripQuestion::NewPoints, number, s.vertices, |k| {
        point_new(s, k)
    })
}
