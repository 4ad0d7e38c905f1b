// The rule of Done, Error and Aborted (docs/RULES.md, One call).
ghost use Rattle.std.specs.Prelude.{◌≡◌};
ghost use Rattle.block.specs.Ended.{own_flag, request_shown, reset_due, shown, finish_event, ended};

use crate::entry::{Given, Inputs};
use crate::event::Event;
use crate::pass::Pass;
use crate::record::{Flags, Record};
use kind::Kind;

// The flag of the step.
fn own_flag(step: u8, f: Flags) -> bool
    ensures { result ≡ own_flag step f }
{
    if step == Record::DONE {
        return f.done;
    }
    if step == Record::ERROR {
        return f.error;
    }
    f.aborted
}

// The reset request: not start, which level Done leaves 0.
fn request_shown(kind: Kind, step: u8, start: bool) -> bool
    ensures { result ≡ request_shown kind step start }
{
    !((step == Record::DONE) & !kind.is_edge()) & !start
}

// Busy cleared, the step's own flag set, and the reset request.
fn shown(kind: Kind, i: Inputs, mut r: Record) -> Record
    ensures { result ≡ shown kind i r }
{
    let step = r.step;
    r.request = request_shown(kind, step, i.start);
    let done = r.flags.done | (step == Record::DONE);
    let error = r.flags.error | (step == Record::ERROR);
    let aborted = r.flags.aborted | (step == Record::ABORTED);
    r.flags.busy = false;
    r.flags.done = done;
    r.flags.error = error;
    r.flags.aborted = aborted;
    r
}

// Own flag already set, and start false or reset request 1.
fn reset_due(i: Inputs, r: Record) -> bool
    ensures { result ≡ reset_due i r }
{
    own_flag(r.step, r.flags) & (!i.start | r.request)
}

// The first showing writes the finish event.
fn finish_event(r: Record) -> Option<Event>
    ensures { result ≡ finish_event r }
{
    if own_flag(r.step, r.flags) {
        return None;
    }
    if r.step == Record::DONE {
        return Some(Event::of(Event::DONE, r));
    }
    if r.step == Record::ERROR {
        return Some(Event::of(Event::FAILED, r));
    }
    Some(Event::of(Event::ABORTED, r))
}

impl Given {
    /// A pass in Done, Error or Aborted: the end step is shown, or its reset begins.
    #[tactic(auto, unfolding(crate::specs::Ended::ended))]
    pub fn ended(self, r: Record) -> Pass
        ensures { result ≡ ended self.kind self.inputs r }
    {
        let Given { kind, inputs, .. } = self;
        if reset_due(inputs, r) {
            return Pass::go_on(0, r.at_step(Record::RESETTING));
        }
        Pass {
            next: shown(kind, inputs, r),
            event: finish_event(r),
            used: 0,
            again: false,
        }
    }
}
