// Inner: walks and searches over any turning. Who calls them has asked that the names are held and that the buffers are long enough.
#![tactic(auto)]

mod classes;
pub mod marks;
pub mod pieces;
pub mod rounds;
pub mod walk;
