// Tags: one or more of A-Z, 0-9 and, except first, the underscore, then spaces to eight bytes.
ghost use Rattle.std.specs.Prelude.{◌≡◌, ◌+◌, ◌-◌, ◌*◌, ◌≤◌, length};
ghost use Rattle.std.specs.Int.Bits.{bit_xor};
ghost use Rattle.words.specs.Word.{number, bytes};
ghost use Rattle.image.specs.Image.{tag_length, tag_of, HasSlot};
ghost use Rattle.table.specs.Tag.{tag_form, same_bytes};

use image::{TAG_LENGTH, TAG_OFFSET, slot_start};
use words::read_at;

// Bit 7 of each of the eight bytes of a number.
const HIGH: u64 = 0x8080808080808080;

// One in every byte.
const EVERY: u64 = 0x0101010101010101;

// One in every byte but the first.
const LATER: u64 = 0x0101010101010100;

// For x with all bytes below 128, and least <= most: bit 7 of each byte that has a one in `bytes` is set exactly where least <= byte <= most; bit 7 of the others is 0.
fn range_marks(x: u64, bytes: u64, least: u8, most: u8) -> u64
    requires { (x ≤ 0x7F7F7F7F7F7F7F7F) × (bytes ≤ 0x0101010101010101) × (least ≤ 128) × (most ≤ 127) }
    ensures { result ≡ bit_xor (x + (128 - least) * bytes) (x + (127 - most) * bytes) }
{
    (x + (128 - least as u64) * bytes) ^ (x + (127 - most as u64) * bytes)
}

// Whether the eight bytes of a number, the first one lowest, are in tag form, all bytes at once: the first is a letter or a digit, each other one a
// character or a space, and no character comes right after a space.
fn number_form(x: u64) -> bool
    ensures { result ≡ tag_form (bytes tag_length x) }
{
    if (x & HIGH) != 0 {
        return false;
    }
    let letters = range_marks(x, EVERY, b'A', b'Z');
    let digits = range_marks(x, EVERY, b'0', b'9');
    let underscores = range_marks(x, LATER, b'_', b'_');
    let spaces = range_marks(x, LATER, b' ', b' ');
    let characters = letters | digits | underscores;
    (((characters | spaces) & HIGH) == HIGH) & (((characters >> 8) & spaces & HIGH) == 0)
}

/// Whether bytes are eight in tag form (docs/RULES.md, Table image).
pub fn tag_form(tag: &[u8]) -> bool
    ensures { result ≡ tag_form tag.now }
{
    if tag.len() != TAG_LENGTH {
        return false;
    }
    number_form(read_at::<u64>(tag, 0))
}

/// Whether a slot's tag is in form.
// Beside `tag_form`: the tag of a slot has its eight bytes, and no length is tested.
pub fn slot_tag_form(image: &[u8], slot: u8) -> bool
    requires { HasSlot image.now slot }
    ensures { result ≡ tag_form (tag_of image.now slot) }
{
    number_form(tag_number(image, slot))
}

/// A slot's tag as one number, its first byte lowest: two tags are the same where their numbers are.
pub fn tag_number(image: &[u8], slot: u8) -> u64
    requires { HasSlot image.now slot }
    ensures { result ≡ number (tag_of image.now slot) }
{
    read_at::<u64>(image, slot_start(slot) + TAG_OFFSET)
}

/// Whether a slot has the tag that stands for this number: all eight bytes at once.
pub fn has_tag(image: &[u8], slot: u8, wanted: u64) -> bool
    requires { HasSlot image.now slot }
    ensures { result ≡ same_bytes (tag_of image.now slot) (bytes tag_length wanted) }
{
    tag_number(image, slot) == wanted
}
