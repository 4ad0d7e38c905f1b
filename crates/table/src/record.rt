// Checks 7 to 10: the records, in chain order.
ghost use Rattle.std.specs.Prelude.{◌≡◌, ◌+◌, ◌<◌, ◌≤◌, take, false};
ghost use Rattle.image.specs.Image.{slot_length, wire_slot, wire_code, tag_of, HasSlot};
ghost use Rattle.table.specs.Header.{HeaderOk};
ghost use Rattle.table.specs.Chain.{chain_of, Holds};
ghost use Rattle.table.specs.Record.{kind_ok, no_wire, wire_ok, abort_ok, tag_among, record_check, records_check};
ghost use Rattle.table.specs.Marks.{mark_count, mark_index};

use crate::chain::{Chain, on_chain};
use crate::tag::{slot_tag_form, tag_number};
use image::{
    ABORT_WIRE_OFFSET, KIND_OFFSET, START_WIRE_OFFSET, ZERO_OFFSET, slot_byte, slot_start,
};
use kind::Kind;
use refusal::{Check, Checked, Refusal};
use words::read_at;

// One of the fourteen kinds, and bytes 6 and 7 zero, as one number.
// While the checks run there is no Table yet that has these facts: each asks for header and chain.
fn kind_ok(image: &[u8], slot: u8) -> bool
    requires { HasSlot image.now slot }
    ensures { result ≡ kind_ok image.now slot }
{
    let kind = Kind::from(slot_byte(image, slot, KIND_OFFSET));
    kind.is_kind() & (read_at::<u16>(image, slot_start(slot) + ZERO_OFFSET) == 0)
}

// Whether a wire's two bytes are zero, as one number: the input is the frame's bit.
// As one number: with the zero bytes of the slot 550 of 9,900 instructions less in the check of 64 (docs/PERFORMANCE.md).
#[tactic(auto, using(crate::proofs::WireLaws::slot_pair_zero))]
fn no_wire(image: &[u8], slot: u8, wire: usize) -> bool
    requires has_slot { HasSlot image.now slot }
    requires wire_bound { wire + 1 < slot_length }
    ensures { result ≡ no_wire (wire_slot image.now slot wire) (wire_code image.now slot wire) }
{
    read_at::<u16>(image, slot_start(slot) + wire) == 0
}

// No wire, or one from a slot on the chain with a code of bits 0, 1 and 7. Slot 0 is on no chain.
fn wire_ok(image: &[u8], chain: &Chain, slot: u8, wire: usize) -> bool
    requires has_slot { HasSlot image.now slot }
    requires wire_bound { wire + 1 < slot_length }
    requires holds { Holds (chain_of image.now) chain.now }
    ensures { result ≡ wire_ok (chain_of image.now) (wire_slot image.now slot wire) (wire_code image.now slot wire) }
{
    if no_wire(image, slot, wire) {
        return true;
    }
    let source = slot_byte(image, slot, wire);
    let code = slot_byte(image, slot, wire + 1);
    on_chain(chain, source) & (code % 128 < 4)
}

// No abort wire, or one as it should be on a kind with abort.
fn abort_ok(image: &[u8], chain: &Chain, slot: u8) -> bool
    requires has_slot { HasSlot image.now slot }
    requires holds { Holds (chain_of image.now) chain.now }
    ensures { result ≡ abort_ok image.now (chain_of image.now) slot }
{
    if no_wire(image, slot, ABORT_WIRE_OFFSET) {
        return true;
    }
    if !Kind::from(slot_byte(image, slot, KIND_OFFSET)).has_abort() {
        return false;
    }
    wire_ok(image, chain, slot, ABORT_WIRE_OFFSET)
}

// The places for marks, and the constants of the hash that chooses one: specs/Marks.antt says what they are.
const MARKS: usize = 128;

const WORD_MODULUS: u64 = 4294967296;

const HASH_FACTOR: u64 = 2654435769;

const LOW_BITS: u64 = 33554432;

// Where a tag is marked.
fn mark_index(tag: u64) -> usize
    ensures value { result ≡ mark_index tag }
    ensures upper_bound { result < mark_count }
{
    let folded = (tag % WORD_MODULUS + tag / WORD_MODULUS) % WORD_MODULUS;
    (folded * HASH_FACTOR / LOW_BITS) as usize % MARKS
}

// Whether a slot's tag is that of one of the first n blocks.
fn is_among(image: &[u8], chain: &Chain, n: usize, slot: u8) -> bool
    requires header_ok { HeaderOk image.now }
    requires has_slot { HasSlot image.now slot }
    requires few { n ≤ chain.now.count }
    requires holds { Holds (chain_of image.now) chain.now }
    ensures { result ≡ tag_among image.now (tag_of image.now slot) (take n (chain_of image.now)) }
{
    let tag = tag_number(image, slot);
    let mut found = false;
    // A flag and no `return`: a `return` at the first made the check of 64 blocks 95 instructions longer, as LLVM then leaves the loop as it is.
    for i in 0..n {
        if tag_number(image, chain.slots[i]) == tag {
            found = true;
        }
    }
    found
}

// The same, where no mark says that it is not.
fn is_repeated(image: &[u8], chain: &Chain, n: usize, slot: u8, marked: bool) -> bool
    requires header_ok { HeaderOk image.now }
    requires has_slot { HasSlot image.now slot }
    requires few { n ≤ chain.now.count }
    requires holds { Holds (chain_of image.now) chain.now }
    requires unmarked { marked ≡ false → tag_among image.now (tag_of image.now slot) (take n (chain_of image.now)) ≡ false }
    ensures { result ≡ tag_among image.now (tag_of image.now slot) (take n (chain_of image.now)) }
{
    marked && is_among(image, chain, n, slot)
}

// Checks 7 to 10 of the record of block i. Where its tag's place is not marked, no earlier block has its tag.
#[tactic(auto, unfolding(crate::specs::Record::record_check))]
fn check_record(image: &[u8], chain: &Chain, i: usize, slot: u8, marked: bool) -> Checked<()>
    requires header_ok { HeaderOk image.now }
    requires has_slot { HasSlot image.now slot }
    requires few { i ≤ chain.now.count }
    requires holds { Holds (chain_of image.now) chain.now }
    requires unmarked { marked ≡ false → tag_among image.now (tag_of image.now slot) (take i (chain_of image.now)) ≡ false }
    ensures { result
        ≡ record_check image.now (chain_of image.now)
        (tag_among image.now (tag_of image.now slot) (take i (chain_of image.now))) slot }
{
    if !kind_ok(image, slot) {
        return Err(Refusal::at_slot(Check::RecordKind, slot));
    }
    if !slot_tag_form(image, slot) {
        return Err(Refusal::at_slot(Check::TagForm, slot));
    }
    if is_repeated(image, chain, i, slot, marked) {
        return Err(Refusal::at_slot(Check::TagAgain, slot));
    }
    if !wire_ok(image, chain, slot, START_WIRE_OFFSET) {
        return Err(Refusal::at_slot(Check::WireForm, slot));
    }
    if !abort_ok(image, chain, slot) {
        return Err(Refusal::at_slot(Check::WireForm, slot));
    }
    Ok(())
}

/// Checks 7 to 10 of every record, each through all four before the next. A tag that was met has a mark in its place.
pub fn check_records(image: &[u8], chain: &Chain) -> Checked<()>
    requires header_ok { HeaderOk image.now }
    requires holds { Holds (chain_of image.now) chain.now }
    ensures { result ≡ records_check image.now }
{
    let mut marks = [false; MARKS];
    for i in 0..chain.count {
        let slot = chain.slots[i];
        let place = mark_index(tag_number(image, slot));
        check_record(image, chain, i, slot, marks[place])?;
        marks[place] = true;
    }
    Ok(())
}
