// The rule of Aborting (docs/RULES.md, One call).
ghost use Rattle.std.specs.Prelude.{◌≡◌};
ghost use Rattle.block.specs.PackedEntry.{entry_of};
ghost use Rattle.block.specs.Aborting.{aborting};

use crate::entry::{Entry, Given, PackedEntry};
use crate::event::Event;
use crate::pass::Pass;
use crate::record::Record;

impl Given {
    /// A pass in Aborting, by the abort reply.
    #[tactic(auto, unfolding(crate::specs::Aborting::aborting))]
    pub fn aborting(self, r: Record) -> Pass
        ensures { result ≡ aborting self.kind (entry_of self.entry) r }
    {
        if self.entry.abort_reply == Entry::ERROR {
            return Pass::go_on(0, r.failed_with(self.entry.abort_code));
        }
        if self.entry.abort_reply == Entry::COMPLETE {
            if self.kind.is_edge() {
                return Pass::go_on(0, r.at_step(Record::ABORTED));
            }
            let event = Event::of(Event::WITHDRAWN, r);
            return Pass {
                next: r.at_step(Record::RESETTING),
                event: Some(event),
                used: 0,
                again: true,
            };
        }
        Pass::stop(0, r)
    }
}
