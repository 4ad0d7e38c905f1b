// The rule of Executing (docs/RULES.md, One call).
ghost use Rattle.std.specs.Prelude.{◌≡◌, ◌+◌, ◌<◌, ◌≤◌, cond, map, take};
ghost use Rattle.block.specs.PackedEntry.{piece_of, entry_of};
ghost use Rattle.block.specs.Entry.{most_pieces};
ghost use Rattle.block.specs.Executing.{called_off, at_call, use_piece, ends_pieces, use_pieces, timed, judge, executing};

use crate::entry::{Entry, Given, Inputs, PIECES, PackedEntry, Piece, piece_of};
use crate::pass::Pass;
use crate::record::Record;
use clock::Timer;
use kind::Kind;

/// Where the pieces of a call stand: the time counted, the last reply with its code, and the pieces used.
#[derive(Clone, Copy)]
pub struct Work {
    pub timer: Timer,
    pub reply: u8,
    pub code: u16,
    pub used: u8,
}

/// What ends the pieces of a call: the bounds in force, and the call clock.
#[derive(Clone, Copy)]
pub struct Bounds {
    pub limit: u32,
    pub timeout: u32,
    pub call: u32,
}

// The time in force, 0 for none: edge kinds go by the stored one, level kinds by their entry's.
fn in_force(has: bool, edge: bool, stored: u32, given: u32) -> u32
    ensures { result ≡ cond has (cond edge stored given) 0 }
{
    if has {
        if edge {
            return stored;
        }
        return given;
    }
    0
}

// Edge with abort true, or level with start false.
fn called_off(kind: Kind, i: Inputs) -> bool
    ensures { result ≡ called_off kind i }
{
    if kind.is_edge() {
        return kind.has_abort() & i.abort;
    }
    !i.start
}

// Before the first piece: the time to the call clock is added.
fn at_call(e: PackedEntry, r: Record) -> Work
    ensures { result ≡ at_call (entry_of e) r }
{
    let before = r.timer;
    let timer = before.tick(e.clock);
    Work {
        timer,
        reply: Entry::WORKING,
        code: 0,
        used: 0,
    }
}

// A piece is used: its time is added, and its reply is the last one.
fn use_piece(w: Work, p: Piece) -> Work
    requires { w.used < 255 }
    ensures { result ≡ use_piece w p }
{
    let before = w.timer;
    let timer = before.tick(p.clock);
    Work {
        timer,
        reply: p.reply,
        code: p.code,
        used: w.used + 1,
    }
}

// Whether the piece that was just used is the last of this call.
fn ends_pieces(several: bool, b: Bounds, w: Work, p: Piece) -> bool
    ensures { result ≡ ends_pieces several b w p }
{
    let timer = w.timer;
    !several
        | !(w.reply == Entry::WORKING)
        | clock::past_limit(b.limit, b.call, p.clock)
        | timer.past_time_out(b.timeout)
}

// Pieces are used in order until one ends them or none is left.
#[tactic(auto, using(crate::proofs::Pieces::used_all, crate::proofs::Pieces::used_next, crate::proofs::Pieces::taken_pieces))]
fn use_pieces(several: bool, b: Bounds, count: u8, ps: [u64; PIECES], from: Work) -> Work
    requires { (count ≤ most_pieces) × (from.used ≤ 0) }
    ensures { result ≡ use_pieces several b from (take count (map piece_of ps)) }
{
    let mut w = from;
    for word in &ps[..count as usize] {
        let p = piece_of(*word);
        w = use_piece(w, p);
        if ends_pieces(several, b, w, p) {
            return w;
        }
    }
    w
}

// The record with the time of the work.
fn timed(w: Work, mut r: Record) -> Record
    ensures { result ≡ timed w r }
{
    let timer = w.timer;
    r.timer = timer;
    r
}

// The last reading and reply, judged.
#[tactic(auto, unfolding(crate::specs::Executing::judge))]
fn judge(continuous: bool, timeout: u32, w: Work, r: Record) -> Pass
    ensures { result ≡ judge continuous timeout w r }
{
    let next = timed(w, r);
    let complete = w.reply == Entry::COMPLETE;
    if w.reply == Entry::ERROR {
        return Pass::go_on(w.used, next.failed_with(w.code));
    }
    let timer = w.timer;
    if timer.past_time_out(timeout) {
        return Pass::go_on(w.used, next.failed_with(Record::TIMED_OUT));
    }
    if complete & !continuous {
        return Pass::go_on(w.used, next.at_step(Record::DONE));
    }
    Pass::stop(w.used, next)
}

impl Given {
    /// A pass in Executing: called off, or the pieces used and judged.
    #[tactic(auto, unfolding(crate::specs::Executing::executing))]
    pub fn executing(self, r: Record) -> Pass
        requires { self.entry.count ≤ most_pieces }
        ensures { result ≡ executing self.kind self.inputs (entry_of self.entry) r }
    {
        let Given {
            kind,
            inputs,
            entry,
        } = self;
        if called_off(kind, inputs) {
            return Pass::go_on(0, r.at_step(Record::ABORTING));
        }
        let edge = kind.is_edge();
        let several = kind.has_time_limit();
        let timeout = in_force(kind.has_time_out(), edge, r.timeout, entry.timeout);
        let b = Bounds {
            limit: in_force(several, edge, r.limit, entry.limit),
            timeout,
            call: entry.clock,
        };
        let w = use_pieces(several, b, entry.count, entry.pieces, at_call(entry, r));
        judge(kind.is_continuous(), timeout, w, r)
    }
}
