#![tactic(auto)]

// Any list of scans, and the run invariant: definitions and theorems about fresh and the scan, and no code.
