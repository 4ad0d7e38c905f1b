// The rule of Resetting (docs/RULES.md, One call).
ghost use Rattle.std.specs.Prelude.{◌≡◌};
ghost use Rattle.block.specs.PackedEntry.{entry_of};
ghost use Rattle.block.specs.Resetting.{resetting};

use crate::entry::{Entry, Given, PackedEntry};
use crate::event::Event;
use crate::pass::Pass;
use crate::record::Record;

impl Given {
    /// A pass in Resetting, by the reset reply.
    #[tactic(auto, unfolding(crate::specs::Resetting::resetting))]
    pub fn resetting(self, r: Record) -> Pass
        ensures { result ≡ resetting (entry_of self.entry) r }
    {
        if self.entry.reset_reply == Entry::COMPLETE {
            return Pass {
                next: Record::fresh(),
                event: None,
                used: 0,
                again: r.request,
            };
        }
        Pass::stop(0, r)
    }
}
