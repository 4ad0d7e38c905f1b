#![tactic(auto)]

// The sheet of shift totals: from a table and a journal to the bytes that are printed.
pub mod line; // one line
pub mod sheet; // all lines
pub mod totals; // what is printed of all that came: the entry point
