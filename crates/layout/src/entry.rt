// A frame entry as bytes, and back.
ghost use Rattle.std.specs.Prelude.{◌≡◌, ◌&&◌, ◌++◌, ◌+◌, ◌*◌, ◌≤◌, length, drop};
ghost use Rattle.words.specs.Word.{zero_at};
ghost use Rattle.block.specs.PackedEntry.{entry_of};
ghost use Rattle.block.specs.Entry.{most_pieces, code_fits, piece_form, piece_fits, head_fits};
ghost use Rattle.layout.specs.Buffer.{entry_length};
ghost use Rattle.layout.specs.EntryLayout.{entry_offset, piece_length, head_length, head_form, piece_zero};
ghost use Rattle.layout.specs.EntryLayout.{inputs_byte, decode_inputs, encode_piece, decode_piece, encode_entry, decode_entry, entry_bytes};

use crate::record::bit;
use block::entry::{Entry, Inputs, PackedEntry, Piece};
use words::{put_at, read_at};

/// Bytes of a frame entry.
pub const ENTRY_BYTES: usize = 64;

// Bytes of each of its four pieces, and of what stands before them.
const PIECE_BYTES: usize = 8;

const HEAD_BYTES: usize = 24;

// The greatest reply, as a number of two bytes.
const MOST_REPLY: u16 = Entry::ERROR as u16;

/// Where its byte of inputs stands.
pub const INPUTS_OFFSET: usize = 0;

// Where its other fields begin, and its pieces.
const COUNT_OFFSET: usize = 1;

const ABORT_REPLY_OFFSET: usize = 2;

const RESET_REPLY_OFFSET: usize = 3;

const ABORT_CODE_OFFSET: usize = 4;

const UNNAMED_PAIR_OFFSET: usize = 6;

const UNNAMED_QUAD_OFFSET: usize = 8;

const LIMIT_OFFSET: usize = 12;

const TIME_OUT_OFFSET: usize = 16;

const CLOCK_OFFSET: usize = 20;

// Within a piece.
const PIECE_REPLY_OFFSET: usize = 0;

const PIECE_UNNAMED_OFFSET: usize = 1;

const PIECE_CODE_OFFSET: usize = 2;

const PIECE_CLOCK_OFFSET: usize = 4;

const FIRST_PIECE: usize = HEAD_BYTES;

const SECOND_PIECE: usize = FIRST_PIECE + PIECE_BYTES;

const THIRD_PIECE: usize = SECOND_PIECE + PIECE_BYTES;

const FOURTH_PIECE: usize = THIRD_PIECE + PIECE_BYTES;

// The job is last.
const JOB_OFFSET: usize = FOURTH_PIECE + PIECE_BYTES;

/// The inputs in their byte, whatever its other bits are: bit 0 start, bit 1 abort.
pub fn decode_inputs(b: u8) -> Inputs
    ensures { result ≡ decode_inputs b }
{
    Inputs {
        start: b / 1 % 2 == 1,
        abort: b / 2 % 2 == 1,
    }
}

/// The entry in its bytes, which are the first of those given; each piece as one number.
pub fn decode_entry(s: &[u8]) -> PackedEntry
    requires { entry_length ≤ length s.now }
    ensures { entry_of result ≡ decode_entry s.now }
{
    let pieces = [
        read_at(s, FIRST_PIECE),
        read_at(s, SECOND_PIECE),
        read_at(s, THIRD_PIECE),
        read_at(s, FOURTH_PIECE),
    ];
    PackedEntry {
        inputs: decode_inputs(s[INPUTS_OFFSET]),
        count: s[COUNT_OFFSET],
        abort_reply: s[ABORT_REPLY_OFFSET],
        reset_reply: s[RESET_REPLY_OFFSET],
        abort_code: read_at(s, ABORT_CODE_OFFSET),
        job: read_at(s, JOB_OFFSET),
        limit: read_at(s, LIMIT_OFFSET),
        timeout: read_at(s, TIME_OUT_OFFSET),
        clock: read_at(s, CLOCK_OFFSET),
        pieces,
    }
}

#[tactic(auto, using(crate::proofs::EntryCheckLaws::code_zero, crate::proofs::EntryCheckLaws::code_error), unfolding(crate::specs::EntryLayout::decode_entry))]
// The abort code and the six unnamed bytes after it. Without an error reply all are zero, and one number.
fn abort_code_fits(s: &[u8]) -> bool
    requires { entry_length ≤ length s.now }
    ensures { result
        ≡ code_fits (decode_entry s.now).abort_reply (decode_entry s.now).abort_code
        && zero_at 2 s.now entry_offset.unnamed_pair && zero_at 4 s.now entry_offset.unnamed_quad }
{
    if s[ABORT_REPLY_OFFSET] != Entry::ERROR {
        return read_at::<u64>(s, ABORT_CODE_OFFSET) == 0;
    }
    block::entry::code_fits(Entry::ERROR, read_at::<u16>(s, ABORT_CODE_OFFSET))
        & (read_at::<u16>(s, UNNAMED_PAIR_OFFSET) == 0)
        & (read_at::<u32>(s, UNNAMED_QUAD_OFFSET) == 0)
}

// What stands before the pieces: the fields of one byte, each with its own return, then the abort code and the unnamed bytes.
#[tactic(auto, unfolding(crate::specs::EntryLayout::decode_entry))]
fn head_fits(s: &[u8]) -> bool
    requires { entry_length ≤ length s.now }
    ensures { result ≡ head_form s.now && head_fits (decode_entry s.now) }
{
    if s[INPUTS_OFFSET] >= 4 {
        return false;
    }
    if s[COUNT_OFFSET] > Entry::MOST_PIECES {
        return false;
    }
    if s[ABORT_REPLY_OFFSET] > Entry::ERROR {
        return false;
    }
    if s[RESET_REPLY_OFFSET] > Entry::COMPLETE {
        return false;
    }
    abort_code_fits(s)
}

#[tactic(auto, using(crate::proofs::EntryCheckLaws::piece_within))]
// A piece of the count: its reply and the zero byte after it, then its code.
// A place and no array: a piece is tested where it stands in the entry.
fn piece_form(s: &[u8], at: usize) -> bool
    requires { at + piece_length ≤ length s.now }
    ensures { result ≡ piece_zero s.now at && piece_form (decode_piece s.now at) }
{
    (read_at::<u16>(s, at) <= MOST_REPLY)
        & block::entry::code_fits(s[at], read_at::<u16>(s, at + PIECE_CODE_OFFSET))
}

#[tactic(auto, using(crate::proofs::EntryCheckLaws::piece_past, crate::proofs::EntryCheckLaws::piece_uncounted))]
// Piece `i` of an entry that has `count` of them, at its place; a piece past the count is zero.
fn piece_fits(s: &[u8], at: usize, i: u8, count: u8) -> bool
    requires { at + piece_length ≤ length s.now }
    ensures { result ≡ piece_zero s.now at && piece_fits count i (decode_piece s.now at) }
{
    if i < count {
        return piece_form(s, at);
    }
    read_at::<u64>(s, at) == 0
}

// All four pieces are zero.
// By words: what is absent is one number that is zero (docs/PERFORMANCE.md, What was done).
fn pieces_zero(s: &[u8]) -> bool
    requires { entry_length ≤ length s.now }
    ensures { result ≡ zero_at (piece_length * most_pieces) s.now head_length }
{
    (read_at::<u64>(s, FIRST_PIECE) == 0)
        & (read_at::<u64>(s, SECOND_PIECE) == 0)
        & (read_at::<u64>(s, THIRD_PIECE) == 0)
        & (read_at::<u64>(s, FOURTH_PIECE) == 0)
}

#[tactic(auto, using(crate::proofs::EntryCheckLaws::entry_tests, crate::proofs::EntryCheckLaws::no_pieces))]
/// Check 31 of one entry: its head, then its pieces, at once where it has none.
pub fn entry_bytes(s: &[u8]) -> bool
    requires { entry_length ≤ length s.now }
    ensures { result ≡ entry_bytes s.now }
{
    if !head_fits(s) {
        return false;
    }
    let count = s[COUNT_OFFSET];
    if count == 0 {
        return pieces_zero(s);
    }
    if !piece_fits(s, FIRST_PIECE, 0, count) {
        return false;
    }
    if !piece_fits(s, SECOND_PIECE, 1, count) {
        return false;
    }
    if !piece_fits(s, THIRD_PIECE, 2, count) {
        return false;
    }
    piece_fits(s, FOURTH_PIECE, 3, count)
}

// The byte of inputs.
fn inputs_byte(i: Inputs) -> u8
    ensures { result ≡ inputs_byte i }
{
    bit(i.start) + 2 * bit(i.abort)
}

// The first bytes of what is lent become the piece.
fn write_piece(out: &mut [u8], p: Piece)
    requires { piece_length ≤ length out.old }
    ensures { out.new ≡ encode_piece p ++ drop piece_length out.old }
{
    put_at(out, PIECE_REPLY_OFFSET, p.reply);
    put_at(out, PIECE_UNNAMED_OFFSET, 0u8);
    put_at(out, PIECE_CODE_OFFSET, p.code);
    put_at(out, PIECE_CLOCK_OFFSET, p.clock);
}

/// The first bytes of what is lent become the entry.
pub fn write_entry(out: &mut [u8], e: Entry)
    requires { entry_length ≤ length out.old }
    ensures { out.new ≡ encode_entry e ++ drop entry_length out.old }
{
    put_at(out, INPUTS_OFFSET, inputs_byte(e.inputs));
    put_at(out, COUNT_OFFSET, e.count);
    put_at(out, ABORT_REPLY_OFFSET, e.abort_reply);
    put_at(out, RESET_REPLY_OFFSET, e.reset_reply);
    put_at(out, ABORT_CODE_OFFSET, e.abort_code);
    put_at(out, UNNAMED_PAIR_OFFSET, 0u16);
    put_at(out, UNNAMED_QUAD_OFFSET, 0u32);
    put_at(out, LIMIT_OFFSET, e.limit);
    put_at(out, TIME_OUT_OFFSET, e.timeout);
    put_at(out, CLOCK_OFFSET, e.clock);
    write_piece(&mut out[FIRST_PIECE..], e.pieces[0]);
    write_piece(&mut out[SECOND_PIECE..], e.pieces[1]);
    write_piece(&mut out[THIRD_PIECE..], e.pieces[2]);
    write_piece(&mut out[FOURTH_PIECE..], e.pieces[3]);
    put_at(out, JOB_OFFSET, e.job);
}

/// The bytes of an entry.
pub fn encode_entry(e: Entry) -> [u8; ENTRY_BYTES]
    ensures { result ≡ encode_entry e }
{
    let mut b = [0; ENTRY_BYTES];
    write_entry(&mut b, e);
    b
}
