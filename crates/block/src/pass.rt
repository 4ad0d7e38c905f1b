// What a pass of a call leaves.
ghost use Rattle.std.specs.Prelude.{◌≡◌};
ghost use Rattle.block.specs.Pass.{go_on, stop};

use crate::event::Event;
use crate::record::Record;

/// What a pass leaves: the record, at most one event, the pieces used, and whether the call goes on.
#[derive(Clone, Copy)]
pub struct Pass {
    pub next: Record,
    pub event: Option<Event>,
    pub used: u8,
    pub again: bool,
}

impl Pass {
    /// The call goes on; no event.
    // Two makers and no parameter: the rules speak of a pass that goes on and of one that stops.
    pub fn go_on(used: u8, next: Record) -> Pass
        ensures { result ≡ go_on used next }
    {
        Pass {
            next,
            event: None,
            used,
            again: true,
        }
    }

    /// The call stops; no event.
    pub fn stop(used: u8, next: Record) -> Pass
        ensures { result ≡ stop used next }
    {
        Pass {
            next,
            event: None,
            used,
            again: false,
        }
    }
}
