// What an accepted file is. Each function's contract is one theorem of specs/Theorems.antt; none does anything.
#![tactic(auto)]

ghost use Rattle.told.specs.Theorems.{AcceptedTells, ToldAccepted, AcceptedExactly};

pub fn accepted_tells_stands()
    ensures { AcceptedTells }
{}

pub fn told_accepted_stands()
    ensures { ToldAccepted }
{}

pub fn accepted_exactly_stands()
    ensures { AcceptedExactly }
{}
