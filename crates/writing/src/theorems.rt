// What is written of a sheet tells the sheet: a theorem of specs/Theorems.antt. The function does nothing.
ghost use Rattle.writing.specs.Theorems.{WrittenTells};

pub fn written_tells_stands()
    ensures { WrittenTells }
{}
