// Sheets in strips: borders cut a sheet from north to south, and each strip has its own slots.
#![tactic(auto)]

pub mod borders;
mod changes;
pub mod home;
pub mod layout;
mod recut;
pub mod seams;
pub mod sheet;
pub mod taken;
pub mod theorems;
