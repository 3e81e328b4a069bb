// Borders: the whole numbers x where a sheet is cut, from west to east, at most 31 of them.
ghost use Rattle.std.specs.Prelude.{◌≡◌, ◌+◌, ◌≤◌, [], ◌++◌, length, slice_get};
ghost use Rattle.turning.specs.Limits.{max_strips};
ghost use Rattle.turning.specs.Refusals.{asked};
ghost use Rattle.strips.specs.Borders.{rising, strip_count, strip_of};
ghost use Rattle.strips.specs.Cuts.{listed, border_questions};

use arrayvec::ArrayVec;
use chart::point::is_within;
use std::marker::Model;
use turning::limits::MAX_BORDERS;
use turning::refusal::Refusal;

// A list of borders while it is put together.
pub(crate) type List = ArrayVec<i32, MAX_BORDERS>;

// The first `count` places hold the borders, the others 0: so the list tells the whole value, which Copy asks of a type with a Model. They lie in the value itself, as a sheet allocates nothing.
#[derive(Clone, Copy)]
pub struct Borders {
    at: [i32; MAX_BORDERS],
    count: u16,
}

impl Model for Borders {
    ghost use Rattle.std.specs.Prelude.{length, take};
    ghost use Rattle.std.proofs.Common.{sym};
    ghost use Rattle.strips.specs.Places.{BorderList, Padded, padded};

    ghost Value = { BorderList };

    ghost view = { λ b. record { items = take b.count b.at } };

    ghost invariant = { λ b. Padded b.count b.at };

    ghost inverse = { λ s. record { at = padded s.items; count = length s.items } };

    ghost inverse_ok = { λ b p i. record { at = sym p.2 i; count = p.1 i } };
}

impl Borders {
    // The borders, from west to east.
    pub fn as_slice(&self) -> &[i32]
        ensures value { result.now ≡ self.now.items }
        ensures fits { length result.now ≤ 31 }
    {
        &self.at[..self.count as usize]
    }
}

// No borders: the whole sheet is one strip.
pub fn none() -> Borders
    ensures { result.items ≡ [] }
{
    of_list(&[])
}

// The borders of a list that is short enough.
pub(crate) fn of_list(list: &[i32]) -> Borders
    requires { length list.now ≤ 31 }
    ensures { result.items ≡ list.now }
{
    let mut at = [0; MAX_BORDERS];
    at[..list.len()].copy_from_slice(list);
    Borders {
        at,
        count: list.len() as u16,
    }
}

// Puts more borders at the end of a list that has room for them.
pub(crate) fn append(list: &mut List, more: &[i32])
    requires { length list.old.items + length more.now ≤ 31 }
    ensures { list.new.items ≡ list.old.items ++ more.now }
{
    let _ = list.try_extend_from_slice(more);
}

// How many strips the borders make. Readers take `Borders` for its bound: of a slice, this sum could go past 16 bits.
pub fn strip_count(borders: &Borders) -> u16
    ensures count { result ≡ strip_count borders.now.items }
    ensures few { result ≤ max_strips }
{
    borders.count + 1
}

// Border k, from 0, if there are so many.
pub fn border(borders: &Borders, k: u16) -> Option<i32>
    ensures { result ≡ slice_get borders.now.items k }
{
    borders.as_slice().get(k as usize).copied()
}

// The strip where an x lies, counted from 1. Any borders may be asked, also such as do not rise: so they are passed one by one.
pub fn strip_of(borders: &Borders, x: i32) -> u16
    ensures { result ≡ strip_of borders.now.items x }
{
    borders.as_slice().iter().take_while(|b| **b <= x).count() as u16 + 1
}

// Are all borders in range, and each above the one before it?
fn is_rising(borders: &[i32]) -> bool
    ensures { result ≡ rising borders.now }
{
    borders.iter().all(|b| is_within(*b)) && borders.is_sorted_by(|a, b| a < b)
}

// The borders of a list, if a sheet may be cut there.
pub fn check(borders: &[i32]) -> Result<Borders, Refusal>
    ensures { listed result ≡ asked (border_questions borders.now) borders.now }
{
    if borders.len() > MAX_BORDERS {
        return Err(Refusal::TooManyStrips);
    }
    if !is_rising(borders) {
        return Err(Refusal::BadBorders);
    }
    Ok(of_list(borders))
}
