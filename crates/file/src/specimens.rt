// Two files, judged by the definitions.
ghost use Rattle.file.specs.Specimens.{Specimens};

// The verdicts of the two files.
pub fn specimens_stand()
    ensures { Specimens }
{}
