#![tactic(auto)]

// A journal of events checked against a table.
pub mod turns; // which event of a block may come next
mod jobs; // the jobs that are open
pub mod check; // checks 70 and 71, the entry point
