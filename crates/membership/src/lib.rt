#![tactic(auto)]

// Whether a number is within a range, or among some numbers, and the laws of such tests: definitions and laws only, for the crates above.
