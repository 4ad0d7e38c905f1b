#![tactic(auto)]

// Clock readings are u32 counters of microseconds that wrap at 4,294,967,296. Everything that counts time goes through these names.
ghost use Rattle.std.specs.Prelude.{◌≡◌, ◌+◌, min};
ghost use Rattle.clock.specs.Clock.{most_elapsed, since, out_of_step, counted, start, tick, past, past_limit, past_time_out};

/// The last reading, and the time counted up to it, in microseconds: `start` and `tick` keep it at most `Timer::MOST`.
#[derive(Clone, Copy, Debug, PartialEq, Eq)]
pub struct Timer {
    pub last: u32,
    pub elapsed: u64,
}

// The least difference that is not counted.
const LEAST_OUT_OF_STEP: u32 = 2147483648;

/// The difference from one reading to the next, modulo 4,294,967,296.
#[tactic(auto, unfolding(crate::specs::Clock::since))]
pub fn time_since(from: u32, to: u32) -> u32
    ensures { result ≡ since from to }
{
    to.wrapping_sub(from)
}

/// Whether a reading is out of step with the one before it.
pub fn is_out_of_step(from: u32, to: u32) -> bool
    ensures { result ≡ out_of_step from to }
{
    LEAST_OUT_OF_STEP <= time_since(from, to)
}

/// The time that is counted from one reading to the next.
pub fn counted_time(from: u32, to: u32) -> u32
    ensures { result ≡ counted from to }
{
    if is_out_of_step(from, to) {
        return 0;
    }
    time_since(from, to)
}

/// Whether a time is past a bound; bound 0 is none.
#[tactic(auto, unfolding(crate::specs::Clock::past))]
pub fn is_past(bound: u32, time: u64) -> bool
    ensures { result ≡ past bound time }
{
    (bound != 0) & ((bound as u64) < time)
}

/// Whether a reading is past the time limit of the call that began at `call`.
#[tactic(auto, unfolding(crate::specs::Clock::past_limit))]
pub fn past_limit(limit: u32, call: u32, reading: u32) -> bool
    ensures { result ≡ past_limit limit call reading }
{
    is_past(limit, counted_time(call, reading) as u64)
}

impl Timer {
    /// The greatest elapsed time: past every time-out.
    pub const MOST: u64 = 4294967296;

    /// No time counted, from a reading on.
    pub fn start(reading: u32) -> Timer
        ensures { result ≡ start reading }
    {
        Timer {
            last: reading,
            elapsed: 0,
        }
    }

    // Elapsed with some time added, held at its greatest.
    fn held(elapsed: u64, time: u32) -> u64
        ensures { result ≡ min (elapsed + time) most_elapsed }
    {
        elapsed.saturating_add(time as u64).min(Timer::MOST)
    }

    /// One more reading. One out of step changes nothing.
    #[tactic(auto, unfolding(crate::specs::Clock::tick))]
    pub fn tick(self, reading: u32) -> Timer
        ensures { result ≡ tick self reading }
    {
        let last = self.last;
        let elapsed = Timer::held(self.elapsed, counted_time(last, reading));
        if is_out_of_step(last, reading) {
            return Timer { last, elapsed };
        }
        Timer {
            last: reading,
            elapsed,
        }
    }

    /// Whether the time counted is past a time-out; time-out 0 is none.
    #[tactic(auto, unfolding(crate::specs::Clock::past_time_out))]
    pub fn past_time_out(self, timeout: u32) -> bool
        ensures { result ≡ past_time_out timeout self }
    {
        is_past(timeout, self.elapsed)
    }
}
