// Inner: the questions asked of each strip of a file.
#![tactic(auto)]

pub mod asked;
mod followed;
pub mod names;
mod paired;
pub mod place;
mod plain;
mod points;
mod walks;
