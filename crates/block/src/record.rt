// The state record of one block (docs/RULES.md, State record).
ghost use Rattle.std.specs.Prelude.{◌≡◌};
ghost use Rattle.block.specs.Record.{fresh_record, at_step, failed_with};

use clock::Timer;

/// The flags of a record.
#[derive(Clone, Copy, Debug, PartialEq, Eq)]
pub struct Flags {
    pub busy: bool,
    pub done: bool,
    pub error: bool,
    pub aborted: bool,
}

impl Flags {
    /// No flag, and each flag alone.
    pub const NONE: Flags = Flags {
        busy: false,
        done: false,
        error: false,
        aborted: false,
    };

    pub const BUSY: Flags = Flags {
        busy: true,
        done: false,
        error: false,
        aborted: false,
    };

    pub const DONE: Flags = Flags {
        busy: false,
        done: true,
        error: false,
        aborted: false,
    };

    pub const ERROR: Flags = Flags {
        busy: false,
        done: false,
        error: true,
        aborted: false,
    };

    pub const ABORTED: Flags = Flags {
        busy: false,
        done: false,
        error: false,
        aborted: true,
    };
}

/// A state record. `request` is the reset request; `limit` and `timeout` are the time limit and the time-out taken at the start.
// 0 for none and no Option, of limit, time-out and code: a record is read off any bytes, in which the rules store 0.
#[derive(Clone, Copy)]
pub struct Record {
    pub step: u8,
    pub flags: Flags,
    pub request: bool,
    pub job: u64,
    pub code: u16,
    pub limit: u32,
    pub timeout: u32,
    pub timer: Timer,
}

// The steps are numbers and a function makes the fresh record: forms fixed for the project; a record is read off any byte.
impl Record {
    pub const DORMANT: u8 = 0;

    pub const EXECUTING: u8 = 1;

    pub const DONE: u8 = 2;

    pub const ERROR: u8 = 3;

    pub const ABORTING: u8 = 4;

    pub const ABORTED: u8 = 5;

    pub const RESETTING: u8 = 6;

    /// The error code of a time-out.
    pub const TIMED_OUT: u16 = 1;

    /// The fresh record, all zero.
    pub fn fresh() -> Record
        ensures { result ≡ fresh_record }
    {
        Record {
            step: Record::DORMANT,
            flags: Flags::NONE,
            request: false,
            job: 0,
            code: 0,
            limit: 0,
            timeout: 0,
            timer: Timer {
                last: 0,
                elapsed: 0,
            },
        }
    }

    /// The record at another step.
    pub fn at_step(mut self, step: u8) -> Record
        ensures { result ≡ at_step step self }
    {
        self.step = step;
        self
    }

    /// The record at Error, with a code.
    pub fn failed_with(mut self, code: u16) -> Record
        ensures { result ≡ failed_with code self }
    {
        self.step = Record::ERROR;
        self.code = code;
        self
    }
}
