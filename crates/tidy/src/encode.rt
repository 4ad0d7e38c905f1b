// The image of an accepted table's blocks, in chain order and without spares.
ghost use Rattle.std.specs.Prelude.{◌≡◌, [], suc, ◌*◌, ◌≤◌, ◌<◌, length};
ghost use Rattle.image.specs.Image.{slot_length, most_slots, image_length};
ghost use Rattle.table.specs.Blocks.{blocks_of, block_at};
ghost use Rattle.tidy.specs.Encode.{encode_next, encode_fields, encode_slot, encode_slots, encode_header, encode_table, encoded_length};

use image::{
    ABORT_WIRE_OFFSET, HEADER_LENGTH, KIND_OFFSET, SLOT_LENGTH, START_WIRE_OFFSET, TAG_LENGTH,
    TAG_OFFSET,
};
use table::table::Table;

/// The length of a table of n blocks without spares, in bytes; of none it has one slot.
// The bound of n is asked, here and below: it is the number of blocks of a table, which is no part of this.
pub fn encoded_length(n: usize) -> usize
    requires { n ≤ most_slots }
    ensures { result ≡ encoded_length n }
{
    HEADER_LENGTH + SLOT_LENGTH * n.max(1)
}

// The next slot of slot k, of a table of n blocks; 0 after the last, which is the byte that the image has there.
fn encode_next(n: usize, k: usize) -> u8
    requires { n ≤ most_slots }
    ensures { result ≡ encode_next n k }
{
    if k < n {
        return (k + 1) as u8;
    }
    0
}

// What stands before the tag in the slot of block i. The slot of a wire becomes the position of the block there, which for slot 0 is 0; its code is kept.
fn encode_fields(table: &Table, i: usize) -> [u8; TAG_OFFSET]
    requires { i < length (blocks_of table.now) }
    ensures { result ≡ encode_fields (block_at (blocks_of table.now) i) (encode_next (length (blocks_of table.now)) (suc i)) }
{
    let slot = table.slot(i);
    let kind = slot[KIND_OFFSET];
    let next = encode_next(table.len(), i + 1);
    let start = slot[START_WIRE_OFFSET];
    let start_code = slot[START_WIRE_OFFSET + 1];
    let start_position = table.position_of(start);
    let abort = slot[ABORT_WIRE_OFFSET];
    let abort_code = slot[ABORT_WIRE_OFFSET + 1];
    let abort_position = table.position_of(abort);
    [
        kind,
        next,
        start_position,
        start_code,
        abort_position,
        abort_code,
        0,
        0,
    ]
}

// The tag of block i, as a value: a copy straight from the image tests for each block whether the two parts overlap, six instructions more.
fn encode_tag(table: &Table, i: usize) -> [u8; TAG_LENGTH]
    requires { i < length (blocks_of table.now) }
    ensures { result ≡ (block_at (blocks_of table.now) i).tag }
{
    *table.tag(i)
}

// The sixteen bytes of a slot become those of block i.
#[tactic(auto, unfolding(crate::specs::Encode::encode_slot))]
fn encode_slot(out: &mut [u8], table: &Table, i: usize)
    requires i_lt_count { i < length (blocks_of table.now) }
    requires sized { length out.old ≡ slot_length }
    ensures { out.new ≡ encode_slot (block_at (blocks_of table.now) i) (encode_next (length (blocks_of table.now)) (suc i)) }
{
    let (fields, tag) = out.split_at_mut(TAG_OFFSET);
    fields.copy_from_slice(&encode_fields(table, i));
    tag.copy_from_slice(&encode_tag(table, i));
}

// The slots become those of all blocks.
fn encode_slots(out: &mut [u8], table: &Table)
    requires { length out.old ≡ slot_length * length (blocks_of table.now) }
    ensures { out.new ≡ encode_slots (length (blocks_of table.now)) 1 (blocks_of table.now) }
{
    for i in 0..table.len() {
        let at = SLOT_LENGTH * i;
        encode_slot(&mut out[at..at + SLOT_LENGTH], table, i);
    }
}

// The header of a table of n blocks, where n is not 0.
fn encode_header(n: usize) -> [u8; HEADER_LENGTH]
    requires { n ≤ most_slots }
    ensures { result ≡ encode_header n }
{
    [1, n as u8, 1, 0]
}

// A table without blocks: one zero slot.
#[tactic(auto, unfolding(crate::specs::Encode::encode_table))]
fn encode_empty(out: &mut [u8])
    requires { length out.old ≡ image_length 1 }
    ensures { out.new ≡ encode_table [] }
{
    let empty = [1, 1, 0, 0, 0, 0, 0, 0, 0, 0, 0, 0, 0, 0, 0, 0, 0, 0, 0, 0];
    out.copy_from_slice(&empty);
}

/// The whole table, written to a buffer of its length, which `encoded_length` answers of the number of blocks.
#[tactic(auto, using(crate::proofs::EncodeLaws::table_put))]
pub fn encode_table(out: &mut [u8], table: &Table)
    requires { length out.old ≡ encoded_length (length (blocks_of table.now)) }
    ensures { out.new ≡ encode_table (blocks_of table.now) }
{
    let count = table.len();
    if count == 0 {
        encode_empty(out);
        return;
    }
    let (header, slots) = out.split_at_mut(HEADER_LENGTH);
    header.copy_from_slice(&encode_header(count));
    encode_slots(slots, table);
}
