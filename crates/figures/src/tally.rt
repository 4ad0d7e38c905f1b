// How many events each position has of each kind, in one pass over a journal.
ghost use Rattle.std.specs.Prelude.{ℕ, ◌≡◌, ◌*◌, ◌/◌, ◌<◌, ◌≤◌, length};
ghost use Rattle.image.specs.Image.{most_slots};
ghost use Rattle.block.specs.Event.{Withdrawn};
ghost use Rattle.layout.specs.Buffer.{event_length};
ghost use Rattle.layout.specs.EventLayout.{decode_events};
ghost use Rattle.figures.specs.Tally.{counts_of, has_count, counted, CountFits, Tallied};

use block::event::Event;
use image::MOST_SLOTS;
use layout::event::{EVENT_BYTES, decode_event};

/// A count for each kind of event, from 0 to withdrawn.
pub const ROW_LENGTH: usize = 6;

/// The counts of a journal: a row for each position, from 0 to the last.
#[derive(Clone, Copy, Debug, PartialEq, Eq)]
pub struct Tally {
    pub rows: [[u32; ROW_LENGTH]; MOST_SLOTS + 1],
}

// Whether there is a count of such events.
// Two tests and no `get`: a row and then a count that may be missing are two ways to do nothing, which is no plainer.
fn has_count(position: u8, kind: u8) -> bool
    ensures { result ≡ has_count position kind }
{
    (position as usize <= MOST_SLOTS) & (kind <= Event::WITHDRAWN)
}

impl Tally {
    /// No events.
    pub fn new() -> Tally
        ensures { (position kind : ℕ) → counts_of result position kind ≡ 0 }
    {
        Tally {
            rows: [[0; ROW_LENGTH]; MOST_SLOTS + 1],
        }
    }

    /// How many events of a kind a position has.
    // The bound of a position is asked and no type: positions are read off any bytes.
    pub fn count(&self, position: u8, kind: u8) -> u32
        requires { (position ≤ most_slots) × (kind ≤ Withdrawn) }
        ensures { result ≡ counts_of self.now position kind }
    {
        self.rows[position as usize][kind as usize]
    }

    /// One event more. One of a position or kind that has no count, which no accepted journal has, is not counted.
    // That a count fits is asked: it rests on the length of the journal.
    pub fn add(&mut self, position: u8, kind: u8)
        requires { CountFits (counts_of self.old) position kind }
        ensures { counts_of self.new ≡ counted (counts_of self.old) position kind }
    {
        if !has_count(position, kind) {
            return;
        }
        let row = &mut self.rows[position as usize];
        row[kind as usize] += 1;
    }

    /// The counts of a journal's whole events.
    pub fn of(journal: &[u8]) -> Tally
        requires { length journal.now / event_length < 4294967296 }
        ensures { Tallied (decode_events (length journal.now / event_length) journal.now) (counts_of result) }
    {
        let mut tally = Tally::new();
        for bytes in journal.chunks_exact(EVENT_BYTES) {
            let posted = decode_event(bytes);
            tally.add(posted.position, posted.event.kind);
        }
        tally
    }

    /// The counts of the first so many events of a journal.
    pub fn of_first(journal: &[u8], events: usize) -> Tally
        requires events_in_bounds { event_length * events ≤ length journal.now }
        requires events_bound { events < 4294967296 }
        ensures { Tallied (decode_events events journal.now) (counts_of result) }
    {
        Tally::of(&journal[..EVENT_BYTES * events])
    }
}
