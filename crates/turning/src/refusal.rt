// Why a call is refused. The value of each case is the number that users and documents know it by.
use std::error::Error;
use std::fmt;

#[derive(Clone, Copy, PartialEq, Eq, Debug)]
pub enum Refusal {
    // Borders are out of range or do not rise strictly.
    BadBorders = 5,
    // The memory given to a new store has too few records.
    ShortMemory = 18,
    // The marks or the line are shorter than a search needs.
    ShortBuffers = 20,
    // The number of a new edge is not from 1 to 4,095.
    NumberOutOfRange = 21,
    // The number of a new edge is in use.
    NumberInUse = 22,
    // A named edge, halfedge or strip is not there.
    NotThere = 23,
    // A new point is out of range, or a vertex stands there.
    PointTaken = 24,
    // The two ends of a new edge are one point.
    SameEnds = 25,
    // The point of a split does not lie between the ends of its edge.
    NotInside = 26,
    // The corners of a join lie on two loops of one piece.
    LoopsOfOnePiece = 27,
    // The slots that are left are too few.
    NoRoom = 28,
    // The out buffer is too short.
    ShortOut = 29,
    // The border is out of range.
    BorderOutOfRange = 30,
    // The border of a cut is there already, or that of a knit is not.
    WrongBorder = 31,
    // There would be too many strips.
    TooManyStrips = 32,
}

impl fmt::Display for Refusal {
    fn fmt<W: fmt::Write>(&self, f: &mut fmt::Formatter<W>) -> fmt::Result {
        let number = *self as u8;
        write!(f, "refused with {number}")
    }
}

impl Error for Refusal {}
