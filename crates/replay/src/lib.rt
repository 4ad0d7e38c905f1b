#![tactic(auto)]

// Which journals lists of scans write: definitions and theorems about the check of a journal, and no code.
