// A state record as bytes, and back.
ghost use Rattle.std.specs.Prelude.{◌≡◌, ◌++◌, ◌<◌, ◌≤◌, length, drop};
ghost use Rattle.words.specs.Word.{zero_at};
ghost use Rattle.block.specs.Record.{bit};
ghost use Rattle.layout.specs.Buffer.{record_length, put};
ghost use Rattle.layout.specs.RecordLayout.{record_offset, flags_byte, decode_flags, encode_record, decode_record, encode_timer, record_form, sound_bytes};

use block::record::{Flags, Record};
use clock::Timer;
use kind::Kind;
use words::{put_at, read_at};

/// Bytes of a state record.
pub const RECORD_BYTES: usize = 40;

/// Where its step begins.
pub const STEP_OFFSET: usize = 0;

/// Where its byte of flags stands.
pub const FLAGS_OFFSET: usize = 1;

const REQUEST_OFFSET: usize = 2;

// Unnamed bytes: one, four and, after the code, two.
const UNNAMED_OFFSET: usize = 3;

const UNNAMED_QUAD_OFFSET: usize = 4;

const CODE_OFFSET: usize = 8;

const UNNAMED_PAIR_OFFSET: usize = 10;

const LIMIT_OFFSET: usize = 12;

const TIME_OUT_OFFSET: usize = 16;

const LAST_OFFSET: usize = 20;

const ELAPSED_OFFSET: usize = 24;

const JOB_OFFSET: usize = 32;

/// A truth as a bit: 1 or 0.
pub fn bit(b: bool) -> u8
    ensures { result ≡ bit b }
{
    u8::from(b)
}

// No `From` of `Flags`, nor of `Inputs`: these types are of `block`, where alone an impl of another crate's trait could stand, and which bit is which is a layout.
/// The byte of flags: bit 0 busy, 1 done, 2 error, 3 aborted.
pub fn flags_byte(f: Flags) -> u8
    ensures value { result ≡ flags_byte f }
    ensures upper_bound { result < 16 }
{
    bit(f.busy) + 2 * bit(f.done) + 4 * bit(f.error) + 8 * bit(f.aborted)
}

/// The flags in such a byte, whatever its other bits are.
pub fn decode_flags(b: u8) -> Flags
    ensures { result ≡ decode_flags b }
{
    Flags {
        busy: b / 1 % 2 == 1,
        done: b / 2 % 2 == 1,
        error: b / 4 % 2 == 1,
        aborted: b / 8 % 2 == 1,
    }
}

/// The record in its bytes, which are the first of those given.
#[tactic(auto, unfolding(crate::specs::RecordLayout::decode_record))]
pub fn decode_record(s: &[u8]) -> Record
    requires { record_length ≤ length s.now }
    ensures { result ≡ decode_record s.now }
{
    Record {
        step: s[STEP_OFFSET],
        flags: decode_flags(s[FLAGS_OFFSET]),
        request: s[REQUEST_OFFSET] == 1,
        job: read_at(s, JOB_OFFSET),
        code: read_at(s, CODE_OFFSET),
        limit: read_at(s, LIMIT_OFFSET),
        timeout: read_at(s, TIME_OUT_OFFSET),
        timer: Timer {
            last: read_at(s, LAST_OFFSET),
            elapsed: read_at(s, ELAPSED_OFFSET),
        },
    }
}

/// The first bytes of what is lent become the record.
pub fn write_record(out: &mut [u8], r: Record)
    requires { record_length ≤ length out.old }
    ensures { out.new ≡ encode_record r ++ drop record_length out.old }
{
    put_at(out, STEP_OFFSET, r.step);
    put_at(out, FLAGS_OFFSET, flags_byte(r.flags));
    put_at(out, REQUEST_OFFSET, bit(r.request));
    put_at(out, UNNAMED_OFFSET, 0u8);
    put_at(out, UNNAMED_QUAD_OFFSET, 0u32);
    put_at(out, CODE_OFFSET, r.code);
    put_at(out, UNNAMED_PAIR_OFFSET, 0u16);
    put_at(out, LIMIT_OFFSET, r.limit);
    put_at(out, TIME_OUT_OFFSET, r.timeout);
    put_at(out, LAST_OFFSET, r.timer.last);
    put_at(out, ELAPSED_OFFSET, r.timer.elapsed);
    put_at(out, JOB_OFFSET, r.job);
}

/// Of the record that is first in what is lent, the timer is written.
// Beside `write_record`: of a block that goes on working the timer alone is written, 2,000 of 31,900 instructions less at 64 blocks.
pub fn write_timer(out: &mut [u8], timer: Timer)
    requires { record_length ≤ length out.old }
    ensures { out.new ≡ put record_offset.last (encode_timer timer) out.old }
{
    put_at(out, LAST_OFFSET, timer.last);
    put_at(out, ELAPSED_OFFSET, timer.elapsed);
}

#[tactic(auto, using(crate::proofs::RecordCheckLaws::form_tests))]
// The unnamed bytes and bits, and the request.
// By words, as in `record_zero`: unnamed bytes that stand together are one number.
fn record_form(s: &[u8]) -> bool
    requires { record_length ≤ length s.now }
    ensures { result ≡ record_form s.now }
{
    (s[FLAGS_OFFSET] < 16)
        & (read_at::<u16>(s, REQUEST_OFFSET) <= 1)
        & (read_at::<u32>(s, UNNAMED_QUAD_OFFSET) == 0)
        & (read_at::<u16>(s, UNNAMED_PAIR_OFFSET) == 0)
}

#[tactic(auto, using(crate::proofs::RecordCheckLaws::words_zero))]
// All the bytes are zero, read eight at a time: a field begins at each eighth byte.
// By words: what is absent is one number that is zero (docs/PERFORMANCE.md, What was done).
fn record_zero(s: &[u8]) -> bool
    requires { record_length ≤ length s.now }
    ensures { result ≡ zero_at record_length s.now 0 }
{
    (read_at::<u64>(s, STEP_OFFSET) == 0)
        & (read_at::<u64>(s, CODE_OFFSET) == 0)
        & (read_at::<u64>(s, TIME_OUT_OFFSET) == 0)
        & (read_at::<u64>(s, ELAPSED_OFFSET) == 0)
        & (read_at::<u64>(s, JOB_OFFSET) == 0)
}

/// The byte of flags that has busy alone.
// A number of its own: a constant calls no function, so not `flags_byte` of `Flags::BUSY`.
pub const BUSY_ALONE: u8 = 1;

// The first eight bytes of a sound record at Executing, as one number: the step and busy alone; no request, unnamed bytes zero.
const EXECUTING_HEAD: u64 = Record::EXECUTING as u64 + 256 * BUSY_ALONE as u64;

#[tactic(auto, using(crate::proofs::RecordCheckLaws::dormant_tests, crate::proofs::RecordCheckLaws::executing_tests), unfolding(crate::specs::RecordLayout::sound_bytes))]
/// Check 21 of one record: Dormant is all zero; with the head of Executing, code and unnamed pair are zero and the times sound; else the form, then the fields.
pub fn sound_bytes(kind: Kind, s: &[u8]) -> bool
    requires { record_length ≤ length s.now }
    ensures { result ≡ sound_bytes kind s.now }
{
    if s[STEP_OFFSET] == Record::DORMANT {
        return record_zero(s);
    }
    let executing = read_at::<u64>(s, STEP_OFFSET) == EXECUTING_HEAD;
    if executing {
        return (read_at::<u32>(s, CODE_OFFSET) == 0)
            & block::sound::times_sound(kind, decode_record(s));
    }
    if !record_form(s) {
        return false;
    }
    block::sound::sound(kind, decode_record(s))
}
