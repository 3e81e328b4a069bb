// Inner: the memory under the stores. Records of halfedges in a lent slice, with an index from names to slots inside it.
// Slots are counted from 1, and 0 is no slot. What the records mean is in specs/; stores put their own invariant above.
#![tactic(auto)]

pub mod copy;
pub mod edges;
pub mod external;
pub mod halfedge;
pub mod links;
pub mod slots;
pub mod strips;
