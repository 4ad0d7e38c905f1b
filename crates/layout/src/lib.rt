#![tactic(auto)]

// Records, frame entries, report entries and events as bytes, and back. A writer is lent the rest of a buffer from its place on and
// writes the front of it: the form is fixed for the project.
pub mod buffer; // parts of a buffer
pub mod record; // the state record
pub mod entry; // the frame entry
pub mod report; // the report entry
pub mod event; // the journal event
