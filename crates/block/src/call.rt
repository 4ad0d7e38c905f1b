// A call: passes until one stops, in phases (docs/RULES.md, One call).
ghost use Rattle.std.specs.Prelude.{◌≡◌, true, false, Ok, ◌+◌, ◌<◌, ◌≤◌};
ghost use Rattle.block.specs.PackedEntry.{entry_of};
ghost use Rattle.block.specs.Sound.{sound};
ghost use Rattle.block.specs.Record.{fresh_record};
ghost use Rattle.block.specs.Entry.{most_pieces};
ghost use Rattle.block.specs.Call.{Call, unchanged, call_of};
ghost use Rattle.block.specs.CallResult.{outcome_of, no_pass, with_pass, after_pass, left_by};
ghost use Rattle.block.specs.Ended.{is_end};

use crate::entry::{Given, Inputs, PackedEntry};
use crate::event::Event;
use crate::pass::Pass;
use crate::record::Record;
use kind::Kind;

/// What a call leaves: the record, its events (a first, and then perhaps a second), the pieces used and the passes.
#[derive(Clone, Copy)]
pub struct CallResult {
    pub next: Record,
    pub first: Option<Event>,
    pub second: Option<Event>,
    pub used: u8,
    pub passes: u8,
}

impl CallResult {
    // Before the first pass.
    fn begin(r: Record) -> CallResult
        ensures { result ≡ no_pass r }
    {
        CallResult {
            next: r,
            first: None,
            second: None,
            used: 0,
            passes: 0,
        }
    }

    /// The call of a fresh record whose start is false: one pass, which stops.
    // Written out, as `begin` is: a copy of one with another field is no plainer.
    pub fn idle() -> CallResult
        ensures { outcome_of result ≡ unchanged fresh_record }
    {
        CallResult {
            next: Record::fresh(),
            first: None,
            second: None,
            used: 0,
            passes: 1,
        }
    }

    // One pass more. Each result is built anew, not changed in place: docs/PERFORMANCE.md says why.
    #[tactic(auto, unfolding(crate::specs::CallResult::first_after, crate::specs::CallResult::second_after))]
    fn add(self, p: Pass) -> CallResult
        requires { (self.used + p.used < 256) × (self.passes < 255) }
        ensures { result ≡ with_pass self p }
    {
        let next = p.next;
        let used = self.used + p.used;
        let passes = self.passes + 1;
        let Some(event) = p.event else {
            return CallResult {
                next,
                first: self.first,
                second: self.second,
                used,
                passes,
            };
        };
        let Some(first) = self.first else {
            return CallResult {
                next,
                first: Some(event),
                second: None,
                used,
                passes,
            };
        };
        CallResult {
            next,
            first: Some(first),
            second: Some(event),
            used,
            passes,
        }
    }

    // A phase: the pass by its rule where it is due. A call whose pass stops ends there.
    fn phase<F: FnOnce(Record) -> Pass>(self, due: bool, rule: F) -> Result<CallResult, Stopped>
        requires callable { due ≡ true → F.pre rule self.next }
        requires room { due ≡ true → (p : Pass) → F.post rule self.next p → (self.used + p.used < 256) × (self.passes < 255) }
        ensures skipped { due ≡ false → result ≡ Ok self }
        ensures made { due ≡ true → (p : Pass) × F.post rule self.next p × (result ≡ after_pass self p) }
    {
        if !due {
            return Ok(self);
        }
        let p = rule(self.next);
        let call = self.add(p);
        let goes_on = p.again;
        if goes_on {
            return Ok(call);
        }
        Err(Stopped { call })
    }
}

/// A call whose last pass stopped.
#[derive(Clone, Copy)]
pub struct Stopped {
    pub call: CallResult,
}

// Done, Error and Aborted.
fn is_end(step: u8) -> bool
    ensures { result ≡ is_end step }
{
    (step == Record::DONE) | (step == Record::ERROR) | (step == Record::ABORTED)
}

/// One call of a block from a sound record, in phases: an end step that is shown, Resetting, Dormant, Executing, Aborting, and a
/// last pass. A pass that goes on lowers the rank (proofs/Phases.antt), so no call comes back to a phase.
#[tactic(auto, using(crate::proofs::CallLaws::is_call))]
pub fn call(kind: Kind, i: Inputs, e: PackedEntry, r: Record) -> CallResult
    requires { (e.count ≤ most_pieces) × (sound kind r ≡ true) }
    ensures whole { Call kind i (entry_of e) r (outcome_of result) }
    ensures equal { outcome_of result ≡ call_of kind i (entry_of e) r }
{
    let given = Given {
        kind,
        inputs: i,
        entry: e,
    };
    match phases(given, r) {
        Ok(call) => call,
        Err(stopped) => stopped.call,
    }
}

// The phases of a call. The last pass stops: an end step is shown, or a withdrawn block is reset.
fn phases(g: Given, r: Record) -> Result<CallResult, Stopped>
    requires few { g.entry.count ≤ most_pieces }
    requires is_sound { sound g.kind r ≡ true }
    ensures { outcome_of (left_by result) ≡ call_of g.kind g.inputs (entry_of g.entry) r }
{
    let begun = CallResult::begin(r);
    let shown = begun.phase(is_end(begun.next.step), |r| g.ended(r))?;
    let reset = shown.phase(shown.next.step == Record::RESETTING, |r| g.resetting(r))?;
    let started = reset.phase(reset.next.step == Record::DORMANT, |r| g.dormant(r))?;
    let worked = started.phase(started.next.step == Record::EXECUTING, |r| g.executing(r))?;
    let aborted = worked.phase(worked.next.step == Record::ABORTING, |r| g.aborting(r))?;
    let last = aborted.phase(is_end(aborted.next.step), |r| g.ended(r))?;
    let p = g.resetting(last.next);
    Ok(last.add(p))
}
