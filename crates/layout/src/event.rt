// A journal event as bytes, and back.
ghost use Rattle.std.specs.Prelude.{◌≡◌, ◌++◌, ◌≤◌, length, drop};
ghost use Rattle.layout.specs.Buffer.{event_length};
ghost use Rattle.layout.specs.EventLayout.{encode_event, decode_event};

use block::event::Event;
use words::{put_at, read_at};

/// Bytes of a journal event.
pub const EVENT_BYTES: usize = 12;

// Where its fields begin.
const KIND_OFFSET: usize = 0;

/// Where its position stands.
pub const POSITION_OFFSET: usize = 1;

/// Where its code begins, two bytes.
pub const CODE_OFFSET: usize = 2;

/// Where its job begins, eight bytes.
pub const JOB_OFFSET: usize = 4;

/// An event with the position of its block.
#[derive(Clone, Copy)]
pub struct Posted {
    pub position: u8,
    pub event: Event,
}

/// The first bytes of what is lent become the event.
pub fn write_event(out: &mut [u8], position: u8, v: Event)
    requires { event_length ≤ length out.old }
    ensures { out.new ≡ encode_event position v ++ drop event_length out.old }
{
    put_at(out, KIND_OFFSET, v.kind);
    put_at(out, POSITION_OFFSET, position);
    put_at(out, CODE_OFFSET, v.code);
    put_at(out, JOB_OFFSET, v.job);
}

// A slice and no array: a reader that goes by `chunks_exact` would have to make an array of each part first, which is no plainer.
/// The event in its bytes, which are the first of those given.
#[tactic(auto, unfolding(crate::specs::EventLayout::decode_event))]
pub fn decode_event(s: &[u8]) -> Posted
    requires { event_length ≤ length s.now }
    ensures { result ≡ decode_event s.now }
{
    let event = Event {
        kind: s[KIND_OFFSET],
        code: read_at(s, CODE_OFFSET),
        job: read_at(s, JOB_OFFSET),
    };
    Posted {
        position: s[POSITION_OFFSET],
        event,
    }
}
