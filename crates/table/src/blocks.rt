// The wires of a block.
ghost use Rattle.std.specs.Prelude.{◌≡◌, ◌+◌, ◌<◌, ◌≤◌, ◌&&◌};
ghost use Rattle.image.specs.Image.{most_slots, slot_length, wire_slot, wire_code, start_wire_offset, abort_wire_offset, HasSlot};
ghost use Rattle.table.specs.Chain.{chain_of, Holds};
ghost use Rattle.table.specs.Record.{no_wire};
ghost use Rattle.table.specs.Blocks.{flag_named, wire_of, wire_of_numbers};

use crate::chain::Chain;
use image::{START_WIRE_OFFSET, slot_byte, slot_start};
use words::read_at;

/// A flag of a block, as a wire names it.
#[derive(Clone, Copy, Debug, PartialEq, Eq)]
pub enum Flag {
    Busy,
    Done,
    Error,
    Aborted,
}

impl Flag {
    /// The flag that bits 0 and 1 of a wire's code name: 0 busy, 1 done, 2 error, 3 aborted.
    pub fn of(code: u8) -> Flag
        ensures { result ≡ flag_named code }
    {
        match code % 4 {
            0 => Flag::Busy,
            1 => Flag::Done,
            2 => Flag::Error,
            _ => Flag::Aborted,
        }
    }
}

/// A wired input: a flag of the block at a position, from 1; perhaps inverted.
// A position and no reference: so the rules name a block.
#[derive(Clone, Copy, Debug, PartialEq, Eq)]
pub struct Wire {
    pub position: u8,
    pub flag: Flag,
    pub inverted: bool,
}

impl Wire {
    /// The wire that numbers name: the flag is 0 busy, 1 done, 2 error, any other aborted. None at position 0: the input is the frame's bit.
    pub fn of_numbers(position: u8, flag: u8, inverted: bool) -> Option<Wire>
        ensures { result ≡ wire_of_numbers position flag inverted }
    {
        if position == 0 {
            return None;
        }
        Some(Wire {
            position,
            flag: Flag::of(flag.min(3)),
            inverted,
        })
    }
}

/// Whether a slot has no wire: its four bytes of wires as one number.
// Both wires as one number: 1,060 of 36,500 instructions less at 64 working blocks (docs/PERFORMANCE.md).
#[tactic(auto, using(crate::proofs::WireLaws::zero_wires))]
pub fn no_wires(image: &[u8], slot: u8) -> bool
    requires { HasSlot image.now slot }
    ensures { result
        ≡ no_wire (wire_slot image.now slot start_wire_offset) (wire_code image.now slot start_wire_offset)
        && no_wire (wire_slot image.now slot abort_wire_offset) (wire_code image.now slot abort_wire_offset) }
{
    read_at::<u32>(image, slot_start(slot) + START_WIRE_OFFSET) == 0
}

/// A wire of a slot, by where its two bytes stand; none where the input is the frame's bit.
// A wire by its offset: one function reads both, and the bound is that of its two bytes.
pub fn wire_at(image: &[u8], chain: &Chain, slot: u8, wire: usize) -> Option<Wire>
    requires has_slot { HasSlot image.now slot }
    requires wire_bound { wire + 1 < slot_length }
    requires source { wire_slot image.now slot wire ≤ most_slots }
    requires holds { Holds (chain_of image.now) chain.now }
    ensures { result ≡ wire_of (chain_of image.now) (wire_slot image.now slot wire) (wire_code image.now slot wire) }
{
    let source = slot_byte(image, slot, wire);
    let code = slot_byte(image, slot, wire + 1);
    if source == 0 {
        return None;
    }
    Some(Wire {
        position: chain.positions[source as usize],
        flag: Flag::of(code),
        inverted: 128 <= code,
    })
}
