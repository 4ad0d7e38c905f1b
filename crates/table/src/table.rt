// An accepted table, for the layers above: its blocks by their index on the chain, from 0, and a block by its tag.
ghost use Rattle.std.specs.Prelude.{◌≡◌, ◌+◌, ◌<◌, ◌≤◌, Ok, IfOk, length, get_or};
ghost use Rattle.image.specs.Image.{tag_length, slot_bytes, most_slots};
ghost use Rattle.table.specs.Chain.{chain_of, position_of};
ghost use Rattle.table.specs.Check.{check_of, IsAccepted};
ghost use Rattle.table.specs.Lookup.{tag_position, some_position, tag_checks};
ghost use Rattle.table.specs.Blocks.{blocks_of, block_at, is_unwired};

use crate::blocks::{Wire, no_wires, wire_at};
use crate::chain::Chain;
use crate::tag::{has_tag, tag_form};
use image::{
    ABORT_WIRE_OFFSET, KIND_OFFSET, SLOT_LENGTH, START_WIRE_OFFSET, TAG_LENGTH, slot_byte, slot_of,
    tag_of,
};
use kind::Kind;
use refusal::{Answer, Check, Refusal};
use std::marker::Model;
use words::read_at;

/// A table that passed checks 1 to 11: its image, and what they left of its chain. Clauses see the image.
#[derive(Drop)]
pub struct Table<'i, 'c> {
    image: &'i [u8],
    chain: &'c Chain,
}

impl<'i, 'c> Model for Table<'i, 'c> {
    ghost use Rattle.std.specs.Prelude.{ℕ, List};

    ghost Value = { List ℕ };

    ghost use Rattle.table.specs.Check.{IsAccepted};

    ghost view = { λ t. t.image.now };

    ghost invariant = { λ t. IsAccepted t.image.now t.chain.now };
}

// The bound of an index is asked: a type for it would have to name its table.
impl<'i, 'c> Table<'i, 'c> {
    /// An image that passed its checks, and what they left of its chain.
    pub fn new(image: &'i [u8], chain: &'c Chain) -> Self
        requires { IsAccepted image.now chain.now }
        ensures { result ≡ image.now }
    {
        Table { image, chain }
    }

    /// The number of blocks.
    pub fn len(&self) -> usize
        ensures accepted { check_of self.now ≡ Ok result }
        ensures count { result ≡ length (blocks_of self.now) }
        ensures few { result ≤ most_slots }
    {
        self.chain.count
    }

    /// The kind of block i.
    pub fn kind(&self, i: usize) -> Kind
        requires { i < length (blocks_of self.now) }
        ensures { result ≡ (block_at (blocks_of self.now) i).kind }
    {
        Kind::from(slot_byte(self.image, self.chain.slots[i], KIND_OFFSET))
    }

    /// The start wire of block i, where it has one.
    // Start and abort are two functions of one line: with a parameter a caller would name the wire all the same.
    pub fn start_wire(&self, i: usize) -> Option<Wire>
        requires { i < length (blocks_of self.now) }
        ensures { result ≡ (block_at (blocks_of self.now) i).start }
    {
        let slot = self.chain.slots[i];
        wire_at(self.image, self.chain, slot, START_WIRE_OFFSET)
    }

    /// The abort wire of block i, where it has one.
    pub fn abort_wire(&self, i: usize) -> Option<Wire>
        requires { i < length (blocks_of self.now) }
        ensures { result ≡ (block_at (blocks_of self.now) i).abort }
    {
        let slot = self.chain.slots[i];
        wire_at(self.image, self.chain, slot, ABORT_WIRE_OFFSET)
    }

    /// Whether block i has no wire: both inputs are the frame's bits.
    pub fn is_unwired(&self, i: usize) -> bool
        requires { i < length (blocks_of self.now) }
        ensures { result ≡ is_unwired (block_at (blocks_of self.now) i) }
    {
        no_wires(self.image, self.chain.slots[i])
    }

    /// The sixteen bytes of the slot of block i, as a part of the image.
    pub fn slot(&self, i: usize) -> &'i [u8; SLOT_LENGTH]
        requires { i < length (blocks_of self.now) }
        ensures { result.now ≡ slot_bytes self.now (get_or (chain_of self.now) i 0) }
    {
        slot_of(self.image, self.chain.slots[i])
    }

    /// The tag of block i, as a part of the image.
    pub fn tag(&self, i: usize) -> &'i [u8; TAG_LENGTH]
        requires { i < length (blocks_of self.now) }
        ensures { result.now ≡ (block_at (blocks_of self.now) i).tag }
    {
        tag_of(self.image, self.chain.slots[i])
    }

    /// The position of the block in a slot; 0 where it has none, which is the byte that a tidy table has for it.
    // The bound of a slot is asked, here and of wires: it is read off a byte.
    pub fn position_of(&self, slot: u8) -> u8
        requires { slot ≤ most_slots }
        ensures { result ≡ position_of slot (chain_of self.now) }
    {
        self.chain.positions[slot as usize]
    }

    /// The position of the block with a tag of eight bytes, from 1; none where no block has it.
    // A `for` that returns, and no `position` of std over the indices: in its closure the bound of the index stays open.
    pub fn position(&self, tag: &[u8]) -> Option<usize>
        requires { length tag.now ≡ tag_length }
        ensures { result ≡ some_position (tag_position self.now tag.now 1 (chain_of self.now)) }
    {
        let wanted = read_at(tag, 0);
        for i in 0..self.chain.count {
            let found = has_tag(self.image, self.chain.slots[i], wanted);
            if found {
                return Some(i + 1);
            }
        }
        None
    }

    /// Checks 50 and 51: the position of a tag, from 1.
    pub fn find(&self, tag: &[u8]) -> Answer
        ensures answer { result ≡ tag_checks self.now tag.now }
        ensures within { IfOk result (λ p. (0 < p) × (p ≤ length (blocks_of self.now))) }
    {
        if !tag_form(tag) {
            return Err(Refusal::header(Check::LookupForm));
        }
        self.position(tag).ok_or(Refusal::header(Check::UnknownTag))
    }
}
