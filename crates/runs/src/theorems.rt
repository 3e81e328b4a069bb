// What holds of any two runs. Each function's contract is one theorem of specs/; none does anything.
ghost use Rattle.runs.specs.Agreed.{RunsAgree};

pub fn runs_agree_stands()
    ensures { RunsAgree }
{}
