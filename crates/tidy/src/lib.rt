#![tactic(auto)]

// A table written anew, its blocks in chain order in slots 1, 2, 3 and on.
pub mod encode; // the slots of a table's blocks, and the header
pub mod tidy; // the entry point
