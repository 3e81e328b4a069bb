// What the tests and the counts of a turning say in the words of the subject. Each function's contract is one theorem of specs/Words.antt; none does anything.
ghost use Rattle.turning.specs.Words.{TestsTell, PieceIs, CountsAre, LoopsListed, FlatListed, SideTwice};

pub fn tests_tell_stands()
    ensures { TestsTell }
{}

pub fn piece_is_stands()
    ensures { PieceIs }
{}

pub fn counts_are_stands()
    ensures { CountsAre }
{}

pub fn loops_listed_stands()
    ensures { LoopsListed }
{}

pub fn flat_listed_stands()
    ensures { FlatListed }
{}

pub fn side_twice_stands()
    ensures { SideTwice }
{}
