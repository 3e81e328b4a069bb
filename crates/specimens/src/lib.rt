// Worked examples, computed from the definitions at the real limits. The function's contract is the statement of specs/Examples.antt; it does nothing.
#![tactic(auto)]

ghost use Rattle.specimens.specs.Examples.{WorkedExamples};

// All worked examples stand.
pub fn worked_examples_stand()
    ensures { WorkedExamples }
{}
