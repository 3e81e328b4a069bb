// Inner: a file where the caller holds it: its numbers, its strips, the faults that its questions tell, and the questions asked of the whole file.
#![tactic(auto)]

pub mod asking;
pub mod convert;
pub mod fault;
pub mod le;
pub mod parts;
pub mod questions;
pub mod reader;
pub mod specimens;
pub mod view;
pub mod whole;
