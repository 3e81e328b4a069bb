// What the strips of a sheet are, in the words of the subject. Each function's contract is one theorem of specs/Cuts.antt or specs/Seams.antt; none does anything.
ghost use Rattle.strips.specs.Cuts.{StripIs, StripsRise};
ghost use Rattle.strips.specs.Seams.{CutThenKnit, RoomsAlike};

pub fn strip_is_stands()
    ensures { StripIs }
{}

pub fn strips_rise_stands()
    ensures { StripsRise }
{}

pub fn cut_then_knit_stands()
    ensures { CutThenKnit }
{}

pub fn rooms_alike_stands()
    ensures { RoomsAlike }
{}
