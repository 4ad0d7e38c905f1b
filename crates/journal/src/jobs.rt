// The jobs that are open.
ghost use Rattle.std.specs.Prelude.{ℕ, ◌≡◌, ◌≤◌};
ghost use Rattle.std.proofs.Math.Option.{none};
ghost use Rattle.image.specs.Image.{most_slots};
ghost use Rattle.journal.specs.Check.{opened_by};
ghost use Rattle.journal.specs.OpenJob.{option_of, jobs_of};

use block::event::Event;
use image::MOST_SLOTS;
use layout::event::Posted;

/// The job that is open at each position, if one is.
// Two arrays, since one of Option<u64> is near twice as many words to clear, and a short journal is mostly that.
#[derive(Drop)]
pub struct OpenJobs {
    opens: [bool; MOST_SLOTS + 1],
    jobs: [u64; MOST_SLOTS + 1],
}

impl OpenJobs {
    /// No job is open.
    pub fn new() -> OpenJobs
        ensures { (p : ℕ) → jobs_of result p ≡ none }
    {
        OpenJobs {
            opens: [false; MOST_SLOTS + 1],
            jobs: [0; MOST_SLOTS + 1],
        }
    }

    /// The job that is open at a position.
    // Inlined first, with `set` and `check::is_good`, and the job read before the test, so that LLVM finds its place once an event: else one or two
    // instructions an event more, of some 32.
    #[inline(always)]
    pub fn get(&self, position: u8) -> Option<u64>
        requires { position ≤ most_slots }
        ensures { option_of result ≡ jobs_of self.now position }
    {
        let p = position as usize;
        self.opens[p].then_some(self.jobs[p])
    }

    /// A start opens its job at its position, a finish leaves none open there.
    #[inline(always)]
    pub fn set(&mut self, posted: Posted)
        requires { posted.position ≤ most_slots }
        ensures { jobs_of self.new ≡ opened_by posted (jobs_of self.old) }
    {
        let p = posted.position as usize;
        self.opens[p] = posted.event.kind == Event::START;
        self.jobs[p] = posted.event.job;
    }
}
