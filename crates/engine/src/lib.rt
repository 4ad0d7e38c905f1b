#![tactic(auto)]

// Fresh and the scan: the entry points over lent buffers.
pub mod told; // what a scan is told
pub mod verify; // checks 20 to 41, which only read
pub mod inputs; // wires and frame to the inputs of a call
pub mod idle; // an idle block's step, which gets the state only to read
pub mod lent; // the lent buffers as one value
pub mod serve; // one block's step, and every block's
pub mod fresh;
pub mod scan;
