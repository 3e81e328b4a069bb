// The questions by their numbers: of the whole file, of each strip, of the seams, of the line work, and of the call.
ghost use Rattle.file.specs.declared.fault.Layer.TheVariants.{File, Strip, Seam, Flat, Call};

use crate::fault::{Layer, Question, QuestionFault};

// What is asked of the whole file.
#[derive(Clone, Copy, PartialEq, Eq, Debug, Drop)]
pub enum FileQuestion {
    // How many strips there are.
    Count = 1,
    // The sizes of all strips are there.
    SizesThere = 2,
    // Sizes are within the limits.
    SizesFit = 3,
    // The file is as long as its sizes tell.
    Length = 4,
    // Borders are in range and rise.
    Borders = 5,
}

// What is asked of each strip.
#[derive(Clone, Copy, PartialEq, Eq, Debug, Drop)]
pub enum StripQuestion {
    // Names are in range.
    Names = 6,
    // Each name stands once, with its negation.
    Pairs = 7,
    // Followers are slots or none.
    Followers = 8,
    // Each home slot is followed once, each external one never.
    Followed = 9,
    // There are as many rounds as vertices.
    Rounds = 10,
    // Points are in range and in the strip.
    Points = 11,
    // Points differ.
    NewPoints = 12,
}

// What is asked of the seams between strips.
#[derive(Clone, Copy, PartialEq, Eq, Debug, Drop)]
pub enum SeamQuestion {
    // External names stand in the neighbour strip too.
    RunsOn = 13,
    // Home names do not.
    StartsHere = 14,
    // Each name has one home slot at most.
    Homes = 15,
    // +e lies west of -e where both are home in one strip.
    WestFirst = 16,
}

// What is asked of the line work as a whole.
#[derive(Clone, Copy, PartialEq, Eq, Debug, Drop)]
pub enum FlatQuestion {
    // It is flat.
    Flat = 17,
}

// What is asked of the call itself.
#[derive(Clone, Copy, PartialEq, Eq, Debug, Drop)]
pub enum CallQuestion {
    // The memory of the sheet is as long as it has to be.
    Memory = 18,
    // So are the working buffers.
    Buffers = 20,
}

// A fault of the whole file.
pub type FileFault = QuestionFault<FileQuestion>;

// A fault of a strip.
pub type StripFault = QuestionFault<StripQuestion>;

// A fault of the seams.
pub type SeamFault = QuestionFault<SeamQuestion>;

// A fault of the line work.
pub type FlatFault = QuestionFault<FlatQuestion>;

// A fault of the call.
pub type CallFault = QuestionFault<CallQuestion>;

impl Question for FileQuestion {
    ghost use Rattle.file.specs.Numbers.{file_number};

    ghost LAYER = { File };

    ghost number = { file_number };

    const LAYER: Layer = Layer::File;

    fn number(self) -> u8 {
        self as u8
    }
}

impl Question for StripQuestion {
    ghost use Rattle.file.specs.Numbers.{strip_number};

    ghost LAYER = { Strip };

    ghost number = { strip_number };

    const LAYER: Layer = Layer::Strip;

    fn number(self) -> u8 {
        self as u8
    }
}

impl Question for SeamQuestion {
    ghost use Rattle.file.specs.Numbers.{seam_number};

    ghost LAYER = { Seam };

    ghost number = { seam_number };

    const LAYER: Layer = Layer::Seam;

    fn number(self) -> u8 {
        self as u8
    }
}

impl Question for FlatQuestion {
    ghost use Rattle.file.specs.Numbers.{flat_number};

    ghost LAYER = { Flat };

    ghost number = { flat_number };

    const LAYER: Layer = Layer::Flat;

    fn number(self) -> u8 {
        self as u8
    }
}

impl Question for CallQuestion {
    ghost use Rattle.file.specs.Numbers.{call_number};

    ghost LAYER = { Call };

    ghost number = { call_number };

    const LAYER: Layer = Layer::Call;

    fn number(self) -> u8 {
        self as u8
    }
}
