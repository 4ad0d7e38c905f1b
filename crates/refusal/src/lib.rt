#![tactic(auto)]

// A refusal: the check that turned a call back, and the place that it names.
ghost use Rattle.std.specs.Prelude.{◌≡◌, ◌≤◌, Some};
ghost use Rattle.refusal.specs.Refusal.{check_number, place_number, most_number, refusal_text};

use std::error::Error;
use std::fmt;

/// What a refusal names: nothing (`Header`), a slot of the image, from 1, a position in the chain, from 1, or an event of a journal, from 1.
#[derive(Clone, Copy, Debug, PartialEq, Eq)]
pub enum Place {
    Header,
    Slot(u8),
    Position(u8),
    Event(usize),
}

impl Place {
    /// The number of the slot, position or event; 0 where none is named.
    pub fn number(self) -> usize
        ensures { result ≡ place_number self }
    {
        match self {
            Place::Header => 0,
            Place::Slot(slot) => slot as usize,
            Place::Position(position) => position as usize,
            Place::Event(number) => number,
        }
    }
}

/// The checks by their numbers (docs/RULES.md, Checks): `check as u8` is the number.
#[derive(Clone, Copy, Debug, PartialEq, Eq)]
pub enum Check {
    ShortHeader = 1,
    Version = 2,
    SlotCount = 3,
    ImageLength = 4,
    LinkAbove = 5,
    LinkAgain = 6,
    RecordKind = 7,
    TagForm = 8,
    TagAgain = 9,
    WireForm = 10,
    SpareSlot = 11,
    StateLength = 20,
    Unsound = 21,
    FrameLength = 30,
    EntryForm = 31,
    ReportLength = 40,
    JournalLength = 41,
    LookupForm = 50,
    UnknownTag = 51,
    OutputLength = 60,
    EventsLength = 70,
    EventForm = 71,
    InputLength = 75,
}

/// The first check that fails, and the place that it names.
#[derive(Clone, Copy, Debug, PartialEq, Eq)]
pub struct Refusal {
    pub check: Check,
    pub place: Place,
}

/// A value, or the first check that fails.
pub type Checked<T> = Result<T, Refusal>;

/// What the entry points but `show` and `totals` answer: a number, or the first check that fails.
// Clauses say an answer and its numbers (`answer_of`): the form is fixed for the project.
pub type Answer = Checked<usize>;

impl Refusal {
    /// A check that names no slot, position or event.
    pub fn header(check: Check) -> Self
        ensures { result ≡ record { check = check; place = Place.Header } }
    {
        Refusal {
            check,
            place: Place::Header,
        }
    }

    /// A check of a slot of the image.
    pub fn at_slot(check: Check, slot: u8) -> Self
        ensures { result ≡ record { check = check; place = Place.Slot slot } }
    {
        Refusal {
            check,
            place: Place::Slot(slot),
        }
    }

    /// A check of what stands at a position: a record or an entry.
    pub fn at_position(check: Check, position: u8) -> Self
        ensures { result ≡ record { check = check; place = Place.Position position } }
    {
        Refusal {
            check,
            place: Place::Position(position),
        }
    }

    /// The number of the check: 1 to 75.
    pub fn number(self) -> u8
        ensures value { result ≡ check_number self.check }
        ensures few { result ≤ most_number }
    {
        self.check as u8
    }

    /// The number of the slot, position or event; 0 where none is named.
    pub fn place(self) -> usize
        ensures { result ≡ place_number self.place }
    {
        self.place.number()
    }
}

/// The number, and the place where one is named, as in "refused 10 at slot 2".
impl fmt::Display for Refusal {
    ghost output = { λ r. Some (refusal_text r) };

    fn fmt<W: fmt::Write>(&self, f: &mut fmt::Formatter<W>) -> fmt::Result {
        let number = self.number();
        match self.place {
            Place::Header => write!(f, "refused {number}"),
            Place::Slot(slot) => write!(f, "refused {number} at slot {slot}"),
            Place::Position(position) => write!(f, "refused {number} at position {position}"),
            Place::Event(event) => write!(f, "refused {number} at event {event}"),
        }
    }
}

impl Error for Refusal {}
