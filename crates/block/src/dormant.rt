// The rule of Dormant (docs/RULES.md, One call).
ghost use Rattle.std.specs.Prelude.{◌≡◌, ◌&&◌, cond};
ghost use Rattle.block.specs.PackedEntry.{entry_of};
ghost use Rattle.block.specs.Dormant.{started, dormant};

use crate::entry::{Given, PackedEntry};
use crate::event::Event;
use crate::pass::Pass;
use crate::record::Record;
use clock::Timer;

// What a start takes of a time that its entry gives: edge kinds take what their kind has.
fn taken(has: bool, edge: bool, value: u32) -> u32
    ensures { result ≡ cond (edge && has) value 0 }
{
    if edge & has {
        return value;
    }
    0
}

impl Given {
    // The record that a start leaves.
    fn started(self, mut r: Record) -> Record
        ensures { result ≡ started self.kind (entry_of self.entry) r }
    {
        r.step = Record::EXECUTING;
        r.flags.busy = true;
        r.job = self.entry.job;
        let edge = self.kind.is_edge();
        r.limit = taken(self.kind.has_time_limit(), edge, self.entry.limit);
        r.timeout = taken(self.kind.has_time_out(), edge, self.entry.timeout);
        let timer = Timer::start(self.entry.clock);
        r.timer = timer;
        r
    }

    /// A pass in Dormant: a start, or none.
    #[tactic(auto, unfolding(crate::specs::Dormant::dormant))]
    pub fn dormant(self, r: Record) -> Pass
        ensures { result ≡ dormant self.kind self.inputs (entry_of self.entry) r }
    {
        if self.inputs.start {
            let next = self.started(r);
            return Pass {
                next,
                event: Some(Event::of(Event::START, next)),
                used: 0,
                again: true,
            };
        }
        Pass::stop(0, r)
    }
}
