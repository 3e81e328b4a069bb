// The numbers that bound a sheet, in one place. specs/Limits.antt has the same numbers for the contracts.

// The largest number of an edge.
pub const MAX_EDGE: u16 = 4095;

// The largest name of a halfedge; the smallest is its negation.
pub const MAX_NAME: i16 = 4095;

// How far a coordinate goes to either side of 0.
pub const MAX_COORDINATE: i32 = 1_000_000;

// How many records a store uses of the memory that it is lent.
pub const SLOTS: usize = 4000;

// How many strips a sheet may have.
pub const MAX_STRIPS: usize = 32;

// How many borders lie between that many strips.
pub const MAX_BORDERS: usize = 31;

// A byte of marks for each name, and one for 0.
pub const MARK_BYTES: usize = 8191;

// A place of the line for each name.
pub const LINE_NAMES: usize = 8190;
