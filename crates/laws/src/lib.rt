// What the changes of any store's line work keep: each function's contract is one theorem of specs/Keeps.antt or specs/Laws.antt; none does anything.
#![tactic(auto)]

ghost use Rattle.std.specs.Prelude.{ℕ};
ghost use Rattle.laws.specs.Keeps.{LiftKeeps, HangKeeps, CleaveKeeps};
ghost use Rattle.laws.specs.Laws.{Euler, HungFlat, HungCounts, LiftedFlat, CleftFlat, CleftCounts};

pub fn lift_keeps_stands()
    ensures { (n : ℕ) → LiftKeeps n }
{}

pub fn hang_keeps_stands()
    ensures { (n : ℕ) → HangKeeps n }
{}

pub fn cleave_keeps_stands()
    ensures { (n : ℕ) → CleaveKeeps n }
{}

pub fn euler_stands()
    ensures { Euler }
{}

pub fn hung_flat_stands()
    ensures { HungFlat }
{}

pub fn hung_counts_stands()
    ensures { HungCounts }
{}

pub fn lifted_flat_stands()
    ensures { LiftedFlat }
{}

pub fn cleft_flat_stands()
    ensures { CleftFlat }
{}

pub fn cleft_counts_stands()
    ensures { CleftCounts }
{}
