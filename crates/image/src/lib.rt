#![tactic(auto)]

// The table image: its lengths and bytes by name.
ghost use Rattle.std.specs.Prelude.{◌≡◌, ◌<◌};
ghost use Rattle.image.specs.Image.{slot_length, slot_start, slot_byte, slot_bytes, tag_of, HasSlot};

/// Bytes of the header.
pub const HEADER_LENGTH: usize = 4;

/// Bytes of a slot.
pub const SLOT_LENGTH: usize = 16;

/// A table has 1 to 64 slots, numbered from 1.
pub const MOST_SLOTS: usize = 64;

/// Where the version stands in the header: it is 1.
pub const VERSION_OFFSET: usize = 0;

/// Where the slot count N stands: 1 to 64.
pub const SLOT_COUNT_OFFSET: usize = 1;

/// Where the head slot stands: 0 to N.
pub const HEAD_OFFSET: usize = 2;

/// Where the header has a zero byte.
pub const HEADER_ZERO_OFFSET: usize = 3;

/// Where the kind stands in a slot.
pub const KIND_OFFSET: usize = 0;

/// Where the next slot stands: 0 at the end of the chain.
pub const NEXT_OFFSET: usize = 1;

/// Where the start wire stands: the slot that it names, and its code.
pub const START_WIRE_OFFSET: usize = 2;

/// Where the abort wire stands, in two bytes too.
pub const ABORT_WIRE_OFFSET: usize = 4;

/// Where a slot has two zero bytes.
pub const ZERO_OFFSET: usize = 6;

/// Where the tag stands.
pub const TAG_OFFSET: usize = 8;

/// Bytes of a tag.
pub const TAG_LENGTH: usize = 8;

/// Where a slot begins in the image.
pub fn slot_start(slot: u8) -> usize
    requires { 0 < slot }
    ensures { result ≡ slot_start slot }
{
    HEADER_LENGTH + SLOT_LENGTH * (slot as usize - 1)
}

// Image and slot, not the slot's array: the rules' definitions of a record's checks speak of both, and an array saves no instruction.
/// One byte of a slot, by where it stands there.
pub fn slot_byte(image: &[u8], slot: u8, b: usize) -> u8
    requires has_slot { HasSlot image.now slot }
    requires b_lt_slot_length { b < slot_length }
    ensures { result ≡ slot_byte image.now slot b }
{
    image[slot_start(slot) + b]
}

/// The sixteen bytes of a slot.
pub fn slot_of(image: &[u8], slot: u8) -> &[u8; SLOT_LENGTH]
    requires { HasSlot image.now slot }
    ensures { result.now ≡ slot_bytes image.now slot }
{
    let start = slot_start(slot);
    image[start..start + SLOT_LENGTH].first_chunk().unwrap()
}

/// The eight bytes of a slot's tag.
pub fn tag_of(image: &[u8], slot: u8) -> &[u8; TAG_LENGTH]
    requires { HasSlot image.now slot }
    ensures { result.now ≡ tag_of image.now slot }
{
    let start = slot_start(slot) + TAG_OFFSET;
    image[start..start + TAG_LENGTH].first_chunk().unwrap()
}
