// What a call writes to the journal; the position is added by the journal's writer.
ghost use Rattle.std.specs.Prelude.{◌≡◌};
ghost use Rattle.block.specs.Event.{event_of};

use crate::record::Record;

/// An event of a block.
// Kind and code are numbers, 0 for no code: the promise of a list of scans and check 71 read both off any byte.
#[derive(Clone, Copy, Debug, PartialEq, Eq)]
pub struct Event {
    pub kind: u8,
    pub code: u16,
    pub job: u64,
}

impl Event {
    pub const START: u8 = 1;

    pub const DONE: u8 = 2;

    pub const FAILED: u8 = 3;

    pub const ABORTED: u8 = 4;

    pub const WITHDRAWN: u8 = 5;

    /// The event of a kind for the record's job.
    pub fn of(kind: u8, r: Record) -> Event
        ensures { result ≡ event_of kind r }
    {
        if kind == Event::FAILED {
            return Event {
                kind,
                code: r.code,
                job: r.job,
            };
        }
        Event {
            kind,
            code: 0,
            job: r.job,
        }
    }
}
