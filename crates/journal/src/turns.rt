// Which event of a block may come next.
ghost use Rattle.std.specs.Prelude.{◌≡◌};
ghost use Rattle.block.specs.Turns.{admits, takes_turn};
ghost use Rattle.journal.specs.OpenJob.{option_of};

use block::event::Event;
use block::record::Record;
use kind::Kind;

// Whether a kind has this event with this code.
#[tactic(auto, unfolding(block::specs::Turns::admits))]
fn admits(kind: Kind, v: Event) -> bool
    ensures { result ≡ admits kind v }
{
    if v.kind == Event::FAILED {
        return !(v.code == 0) & (!(v.code == Record::TIMED_OUT) | kind.has_time_out());
    }
    if v.kind == Event::DONE {
        return (v.code == 0) & !kind.is_continuous();
    }
    if v.kind == Event::ABORTED {
        return (v.code == 0) & kind.has_abort();
    }
    (v.code == 0) & (!(v.kind == Event::WITHDRAWN) | !kind.is_edge())
}

/// Whether it is the next event of a block of this kind: a start where no job is open, a finish of the open one.
#[tactic(auto, unfolding(block::specs::Turns::takes_turn))]
pub fn takes_turn(kind: Kind, open_job: Option<u64>, v: Event) -> bool
    ensures { result ≡ takes_turn kind (option_of open_job) v }
{
    if let Some(job) = open_job {
        return (Event::DONE <= v.kind)
            & (v.kind <= Event::WITHDRAWN)
            & admits(kind, v)
            & (v.job == job);
    }
    if v.kind != Event::START {
        return false;
    }
    admits(kind, v)
}
