// The bytes of a sheet.
#![tactic(auto)]

mod arrays;
mod gather;
pub mod theorems;
mod words;
pub mod write;
