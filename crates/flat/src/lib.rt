// The combinatorics of flat turnings. Each function's contract is one theorem of specs/Theorems.antt; none does anything.
// The theorems are proved for any type of names with a test for equality (proofs/Proved.antt). A contract is of Type 0, and so cannot
// range over types: each is stated here at the whole numbers ℤ, told apart by `equal` and paired by `neg_ℤ`.
#![tactic(auto)]

ghost use Rattle.std.specs.Prelude.{ℤ, neg_ℤ};
ghost use Rattle.flat.specs.Whole.{equal};
ghost use Rattle.flat.specs.Theorems.{LinkedIsWalk, OrbitsCount, OrbitsFound, OrbitsOrder, SpliceOrbits, EdgesArePairs, Euler, SpliceOfTwo, SpliceOfOne, StartKeeps, SproutKeeps, JoinKeeps, HangKeeps, RemoveKeeps, CleaveKeeps, StartCounts, SproutCounts, JoinCounts, HangCounts, CleaveCounts, JoinIs, RemoveIs, CleaveIs, Alike, AnyHang, AnyHangCounts, AnyLift, AnyCleave, AnyCleaveCounts, TestIsLaw, TrailApart, TrailWhole, ClosedIsReach, FilterIs, PointsAreRounds};

pub fn linked_is_walk_stands()
    ensures { LinkedIsWalk ℤ equal neg_ℤ }
{}

pub fn orbits_count_stands()
    ensures { OrbitsCount ℤ equal neg_ℤ }
{}

pub fn orbits_found_stands()
    ensures { OrbitsFound ℤ equal neg_ℤ }
{}

pub fn orbits_order_stands()
    ensures { OrbitsOrder ℤ equal neg_ℤ }
{}

pub fn splice_orbits_stands()
    ensures { SpliceOrbits ℤ equal neg_ℤ }
{}

pub fn edges_are_pairs_stands()
    ensures { EdgesArePairs ℤ equal neg_ℤ }
{}

pub fn euler_stands()
    ensures { Euler ℤ equal neg_ℤ }
{}

pub fn splice_of_two_stands()
    ensures { SpliceOfTwo ℤ equal neg_ℤ }
{}

pub fn splice_of_one_stands()
    ensures { SpliceOfOne ℤ equal neg_ℤ }
{}

pub fn start_keeps_stands()
    ensures { StartKeeps ℤ equal neg_ℤ }
{}

pub fn sprout_keeps_stands()
    ensures { SproutKeeps ℤ equal neg_ℤ }
{}

pub fn join_keeps_stands()
    ensures { JoinKeeps ℤ equal neg_ℤ }
{}

pub fn hang_keeps_stands()
    ensures { HangKeeps ℤ equal neg_ℤ }
{}

pub fn remove_keeps_stands()
    ensures { RemoveKeeps ℤ equal neg_ℤ }
{}

pub fn cleave_keeps_stands()
    ensures { CleaveKeeps ℤ equal neg_ℤ }
{}

pub fn start_counts_stands()
    ensures { StartCounts ℤ equal neg_ℤ }
{}

pub fn sprout_counts_stands()
    ensures { SproutCounts ℤ equal neg_ℤ }
{}

pub fn join_counts_stands()
    ensures { JoinCounts ℤ equal neg_ℤ }
{}

pub fn hang_counts_stands()
    ensures { HangCounts ℤ equal neg_ℤ }
{}

pub fn cleave_counts_stands()
    ensures { CleaveCounts ℤ equal neg_ℤ }
{}

pub fn join_is_stands()
    ensures { JoinIs ℤ equal neg_ℤ }
{}

pub fn remove_is_stands()
    ensures { RemoveIs ℤ equal neg_ℤ }
{}

pub fn cleave_is_stands()
    ensures { CleaveIs ℤ equal neg_ℤ }
{}

pub fn alike_stands()
    ensures { Alike ℤ equal neg_ℤ }
{}

pub fn any_hang_stands()
    ensures { AnyHang ℤ equal neg_ℤ }
{}

pub fn any_hang_counts_stands()
    ensures { AnyHangCounts ℤ equal neg_ℤ }
{}

pub fn any_lift_stands()
    ensures { AnyLift ℤ equal neg_ℤ }
{}

pub fn any_cleave_stands()
    ensures { AnyCleave ℤ equal neg_ℤ }
{}

pub fn any_cleave_counts_stands()
    ensures { AnyCleaveCounts ℤ equal neg_ℤ }
{}

pub fn test_is_law_stands()
    ensures { TestIsLaw ℤ equal neg_ℤ }
{}

pub fn trail_apart_stands()
    ensures { TrailApart ℤ equal neg_ℤ }
{}

pub fn trail_whole_stands()
    ensures { TrailWhole ℤ equal neg_ℤ }
{}

pub fn closed_is_reach_stands()
    ensures { ClosedIsReach ℤ equal neg_ℤ }
{}

pub fn filter_is_stands()
    ensures { FilterIs ℤ equal neg_ℤ }
{}

pub fn points_are_rounds_stands()
    ensures { PointsAreRounds ℤ equal neg_ℤ }
{}
