// Frame entries, each as block's table of worked examples defines it. Document 01: "start 1, reset reply complete, one piece a call, both clocks 0 and all else zero, unless given".
ghost use Rattle.std.specs.Prelude.{◌≡◌, [], ◌∷◌};
ghost use Rattle.block.specs.WorkedExamples.{working, complete, error, with_job, start_off, with_time_out, with_limit, with_abort, off_complete};

use block::entry::{Entry, Inputs, Piece};

/// A piece whose action works on, with its clock.
pub fn working(clock: u32) -> Piece
    ensures { result ≡ working clock }
{
    Piece {
        reply: Entry::WORKING,
        code: 0,
        clock,
    }
}

/// A piece whose action is complete.
pub fn complete(clock: u32) -> Piece
    ensures { result ≡ complete clock }
{
    Piece {
        reply: Entry::COMPLETE,
        code: 0,
        clock,
    }
}

/// A piece whose action failed with a code.
pub fn error(code: u16, clock: u32) -> Piece
    ensures { result ≡ error code clock }
{
    Piece {
        reply: Entry::ERROR,
        code,
        clock,
    }
}

/// Start 0.
pub fn start_off(piece: Piece) -> Entry
    ensures { result ≡ start_off piece }
{
    let zero = working(0);
    Entry {
        inputs: Inputs {
            start: false,
            abort: false,
        },
        count: 1,
        abort_reply: Entry::WORKING,
        reset_reply: Entry::COMPLETE,
        abort_code: 0,
        job: 0,
        limit: 0,
        timeout: 0,
        clock: 0,
        pieces: [piece, zero, zero, zero],
    }
}

/// Start 0, and the abort complete.
pub fn off_complete(piece: Piece) -> Entry
    ensures { result ≡ off_complete piece }
{
    Entry {
        abort_reply: Entry::COMPLETE,
        ..start_off(piece)
    }
}

/// Start 1 with a job.
pub fn with_job(job: u64, piece: Piece) -> Entry
    ensures { result ≡ with_job job piece }
{
    Entry {
        inputs: Inputs {
            start: true,
            abort: false,
        },
        job,
        ..start_off(piece)
    }
}

/// Start 1 with a job, and an abort that is complete.
pub fn with_abort(job: u64, piece: Piece) -> Entry
    ensures { result ≡ with_abort job piece }
{
    Entry {
        inputs: Inputs {
            start: true,
            abort: true,
        },
        job,
        ..off_complete(piece)
    }
}

/// Start 1 with a time-out and the clock of the call.
pub fn with_timeout(timeout: u32, clock: u32, piece: Piece) -> Entry
    ensures { result ≡ with_time_out timeout clock piece }
{
    Entry {
        timeout,
        clock,
        ..with_job(0, piece)
    }
}

/// Start 1 with a time limit and three pieces.
pub fn with_limit(limit: u32, first: Piece, second: Piece, third: Piece) -> Entry
    ensures { result ≡ with_limit limit (first ∷ second ∷ third ∷ []) }
{
    Entry {
        count: 3,
        limit,
        pieces: [first, second, third, working(0)],
        ..with_job(0, first)
    }
}
