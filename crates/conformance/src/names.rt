// Steps, flags and events in words.
use block::event::Event;
use block::record::{Flags, Record};
use std::fmt;

/// The step of a report entry, by its name.
#[derive(Clone, Copy)]
pub struct StepName(pub u8);

impl fmt::Display for StepName {
    fn fmt<W: fmt::Write>(&self, f: &mut fmt::Formatter<W>) -> fmt::Result {
        f.pad(match self.0 {
            Record::DORMANT => "Dormant",
            Record::EXECUTING => "Executing",
            Record::DONE => "Done",
            Record::ERROR => "Error",
            Record::ABORTING => "Aborting",
            Record::ABORTED => "Aborted",
            Record::RESETTING => "Resetting",
            _ => "?",
        })
    }
}

/// The flags of a report entry, of which a sound record has one at most.
#[derive(Clone, Copy)]
pub struct FlagName(pub Flags);

impl fmt::Display for FlagName {
    fn fmt<W: fmt::Write>(&self, f: &mut fmt::Formatter<W>) -> fmt::Result {
        let Flags {
            busy,
            done,
            error,
            aborted,
        } = self.0;
        f.pad(match (busy, done, error, aborted) {
            (false, false, false, false) => "-",
            (true, false, false, false) => "busy",
            (false, true, false, false) => "done",
            (false, false, true, false) => "error",
            (false, false, false, true) => "aborted",
            _ => "?",
        })
    }
}

// With the space after it: one piece.
fn event_kind(kind: u8) -> &'static str {
    match kind {
        Event::START => "start ",
        Event::DONE => "done ",
        Event::FAILED => "failed ",
        Event::ABORTED => "aborted ",
        Event::WITHDRAWN => "withdrawn ",
        _ => "? ",
    }
}

/// An event: its kind and its job, and the code of a failure.
#[derive(Clone, Copy)]
pub struct EventText(pub Event);

impl fmt::Display for EventText {
    fn fmt<W: fmt::Write>(&self, f: &mut fmt::Formatter<W>) -> fmt::Result {
        let Event { kind, code, job } = self.0;
        let kind = event_kind(kind);
        if code == 0 {
            return write!(f, "{kind}{job}");
        }
        write!(f, "{kind}{job} with code {code}")
    }
}
