#![tactic(auto)]

// Text written into a buffer: each writer puts its bytes at the end of what a page holds.
pub mod page;
