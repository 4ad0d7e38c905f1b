#![tactic(auto)]

// How many events each block of a journal has of each kind, and the six figures of a line.
pub mod tally; // the counts of a journal
pub mod figures; // the six figures
