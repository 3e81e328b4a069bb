// Inner: the questions asked of the seams between the strips of a file.
#![tactic(auto)]

pub mod asked;
mod beyond;
mod homes;
mod sides;
pub mod vertices;
mod westward;
