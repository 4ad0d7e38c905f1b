// Check 21: which records are sound for a kind, by the step (docs/RULES.md, State record).
ghost use Rattle.std.specs.Prelude.{◌≡◌};
ghost use Rattle.block.specs.Record.{Executing, Done, Error, Aborted, Resetting, at_step};
ghost use Rattle.block.specs.Sound.{only, zeroed, times_sound, sound};

use crate::record::{Flags, Record};
use clock::Timer;
use kind::Kind;

// Just these flags are set. In a trial the derived == in its place took 4.6 percent more instructions of a working block.
fn only(f: Flags, g: Flags) -> bool
    ensures { result ≡ only g.busy g.done g.error g.aborted f }
{
    (f.busy == g.busy) & (f.done == g.done) & (f.error == g.error) & (f.aborted == g.aborted)
}

// All zero, but for the step.
// Field by field and no derived ==: the step is left out, so a record with this step would have to be made first, which is no plainer.
#[tactic(auto, unfolding(crate::specs::Sound::zeroed))]
fn zeroed(r: Record) -> bool
    ensures { result ≡ zeroed r }
{
    only(r.flags, Flags::NONE)
        & !r.request
        & (r.job == 0)
        & (r.code == 0)
        & (r.limit == 0)
        & (r.timeout == 0)
        & (r.timer.last == 0)
        & (r.timer.elapsed == 0)
}

/// Elapsed within its bound, and a stored time only on the kinds that take it.
#[tactic(auto, unfolding(crate::specs::Sound::times_sound))]
pub fn times_sound(kind: Kind, r: Record) -> bool
    ensures { result ≡ times_sound kind r }
{
    if Timer::MOST < r.timer.elapsed {
        return false;
    }
    if (r.limit == 0) & (r.timeout == 0) {
        return true;
    }
    let edge = kind.is_edge();
    ((r.limit == 0) | (edge & kind.has_time_limit()))
        & ((r.timeout == 0) | (edge & kind.has_time_out()))
}

// Busy only: no code, no request.
// One function a step: each asks other flags, codes and kinds, so one with parameters is no plainer.
#[tactic(auto, using(crate::proofs::SoundSteps::at_executing))]
fn executing_sound(kind: Kind, r: Record) -> bool
    ensures { result ≡ sound kind (at_step Executing r) }
{
    only(r.flags, Flags::BUSY) & (r.code == 0) & !r.request & times_sound(kind, r)
}

// Done only: no code, no request on level kinds, not on continuous kinds.
#[tactic(auto, using(crate::proofs::SoundSteps::at_done))]
fn done_sound(kind: Kind, r: Record) -> bool
    ensures { result ≡ sound kind (at_step Done r) }
{
    only(r.flags, Flags::DONE)
        & (r.code == 0)
        & (kind.is_edge() | !r.request)
        & !kind.is_continuous()
        & times_sound(kind, r)
}

// Error only: a code, which is 1 only for To kinds.
#[tactic(auto, using(crate::proofs::SoundSteps::at_error))]
fn error_sound(kind: Kind, r: Record) -> bool
    ensures { result ≡ sound kind (at_step Error r) }
{
    only(r.flags, Flags::ERROR)
        & !(r.code == 0)
        & (!(r.code == Record::TIMED_OUT) | kind.has_time_out())
        & times_sound(kind, r)
}

// Aborted only: no code, on kinds with an abort input.
#[tactic(auto, using(crate::proofs::SoundSteps::at_aborted))]
fn aborted_sound(kind: Kind, r: Record) -> bool
    ensures { result ≡ sound kind (at_step Aborted r) }
{
    only(r.flags, Flags::ABORTED) & (r.code == 0) & kind.has_abort() & times_sound(kind, r)
}

// One of done, error, aborted, or on level kinds busy, with what goes with that flag.
#[tactic(auto, using(crate::proofs::SoundSteps::resetting_busy, crate::proofs::SoundSteps::resetting_done, crate::proofs::SoundSteps::resetting_error, crate::proofs::SoundSteps::resetting_aborted))]
fn resetting_sound(kind: Kind, r: Record) -> bool
    ensures { result ≡ sound kind (at_step Resetting r) }
{
    if r.flags.busy {
        return !kind.is_edge() & executing_sound(kind, r);
    }
    if r.flags.done {
        return done_sound(kind, r);
    }
    if r.flags.error {
        return error_sound(kind, r);
    }
    aborted_sound(kind, r)
}

/// Whether a record is sound for a kind.
#[tactic(auto, using(crate::proofs::SoundSteps::dormant_sound, crate::proofs::SoundSteps::at_aborting, crate::proofs::SoundSteps::no_step, crate::proofs::SoundSteps::at_step_lem))]
pub fn sound(kind: Kind, r: Record) -> bool
    ensures { result ≡ sound kind r }
{
    let step = r.step;
    match step {
        Record::DORMANT => zeroed(r),
        Record::EXECUTING => executing_sound(kind, r),
        Record::DONE => done_sound(kind, r),
        Record::ERROR => error_sound(kind, r),
        Record::ABORTING => kind.can_abort() & executing_sound(kind, r),
        Record::ABORTED => aborted_sound(kind, r),
        Record::RESETTING => resetting_sound(kind, r),
        _ => false,
    }
}
