#![tactic(auto)]

// The table side of the lane engine: the image, its checks, lookup, and the table as a list of blocks.
// Each module has its rules in specs/ and its proofs in proofs/ under the same name.

pub mod header; // checks 1 to 4
pub mod tag; // the form of a tag
pub mod chain; // the walk, checks 5 and 6
pub mod record; // checks 7 to 10
pub mod spare; // check 11
pub mod check; // the table checks, 1 to 11
pub mod blocks; // the wires of a block
pub mod table; // an accepted table
pub mod lookup; // find and show, checks 50 and 51
