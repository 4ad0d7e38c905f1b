#![tactic(auto)]

// The block machine (docs/RULES.md, One call): a call of one block, by one function for each rule.
pub mod record; // the state record, its flags and its steps
pub mod event; // what a call writes to the journal
pub mod entry; // the frame entry, and the inputs of a call
pub mod sound; // which records are sound
pub mod pass; // what a pass leaves
pub mod dormant;
pub mod executing;
pub mod ended; // Done, Error and Aborted
pub mod aborting;
pub mod resetting;
pub mod call; // passes until one stops, in phases
pub mod idle; // which blocks need no call
