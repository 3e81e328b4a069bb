// Lists of calls, each with buffers of its own and a place for its answer, carried out in order over any store, and over a stripped sheet.
#![tactic(auto)]

pub mod calls;
pub mod sheets;
pub mod theorems;
