// The frame entry of one block, and the inputs that a call reads.
ghost use Rattle.std.specs.Prelude.{◌≡◌};
ghost use Rattle.block.specs.Entry.{code_fits};
ghost use Rattle.block.specs.PackedEntry.{piece_of};

use kind::Kind;

/// The inputs of a call. Start is Execute on an edge block and Enable on a level block.
#[derive(Clone, Copy, Debug, Default, PartialEq, Eq)]
pub struct Inputs {
    pub start: bool,
    pub abort: bool,
}

/// How many pieces an entry has place for.
pub const PIECES: usize = 4;

/// A piece: a reply, its error code, and the clock after it.
#[derive(Clone, Copy, Debug, PartialEq, Eq)]
pub struct Piece {
    pub reply: u8,
    pub code: u16,
    pub clock: u32,
}

/// A frame entry whose pieces are `P`. `inputs` are the frame's own bits; a wired input is resolved before the call.
// Four pieces and a count that is asked, not held: an entry is read off any bytes, and there is no heap.
#[derive(Clone, Copy)]
pub struct EntryOf<P> {
    pub inputs: Inputs,
    pub count: u8,
    pub abort_reply: u8,
    pub reset_reply: u8,
    pub abort_code: u16,
    pub job: u64,
    pub limit: u32,
    pub timeout: u32,
    pub clock: u32,
    pub pieces: P,
}

/// The entry of docs/RULES.md, "Frame entry".
pub type Entry = EntryOf<[Piece; PIECES]>;

/// The same with each piece as the number in its eight bytes, which is taken apart where the piece is used.
// Numbers, not pieces: 3,100 of 35,500 instructions less at 64 working blocks (docs/PERFORMANCE.md).
pub type PackedEntry = EntryOf<[u64; PIECES]>;

/// What a call of a block is given: its kind, its inputs and its entry. The rules are its methods.
#[derive(Clone, Copy)]
pub struct Given {
    pub kind: Kind,
    pub inputs: Inputs,
    pub entry: PackedEntry,
}

// Replies stay numbers: an enum of three takes 2.3 percent more instructions of a working block and 3.2 of one that turns over, and `call_of` is defined
// for any byte.
impl Entry {
    pub const WORKING: u8 = 0;

    pub const COMPLETE: u8 = 1;

    pub const ERROR: u8 = 2;

    /// The greatest count.
    pub const MOST_PIECES: u8 = PIECES as u8;

    /// The least code of an error reply.
    pub const LEAST_CODE: u16 = 2;
}

/// The piece in a number.
// A function and no `From`: of the eight bytes it drops the one after the reply, which check 31 asks to be zero.
pub fn piece_of(word: u64) -> Piece
    ensures { result ≡ piece_of word }
{
    Piece {
        reply: (word % 256) as u8,
        code: (word / 65536 % 65536) as u16,
        clock: (word / 4294967296) as u32,
    }
}

/// A code from the least on with an error reply, else 0.
pub fn code_fits(reply: u8, code: u16) -> bool
    ensures { result ≡ code_fits reply code }
{
    if reply == Entry::ERROR {
        return Entry::LEAST_CODE <= code;
    }
    code == 0
}
