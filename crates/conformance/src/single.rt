// One block without wires: its table, its fresh state, and a scan with its line.
use crate::line;
use crate::pieces::Pieces;
use block::entry::Entry;
use image::{HEADER_LENGTH, KIND_OFFSET, SLOT_LENGTH};
use kind::Kind;
use layout::event::EVENT_BYTES;
use layout::record::RECORD_BYTES;
use layout::report::REPORT_BYTES;
use std::fmt::Write;

/// Bytes of an image of one slot.
// As in the other program: each stands on its own.
pub const ONE_SLOT: usize = HEADER_LENGTH + SLOT_LENGTH;

// The kinds of the cases, named as in docs/RULES.md, "Table image"; bytes, since `Kind::from` makes no constant.
/// Edge.
pub const ETRIG: u8 = 1;

/// Edge, with a time limit.
pub const ETRIG_TI: u8 = 2;

/// Edge, with a time-out.
pub const ETRIG_TO: u8 = 3;

/// Edge, with an abort input.
pub const ETRIG_A: u8 = 5;

/// Level.
pub const LCON: u8 = 9;

/// A table of one block of this kind.
pub fn image_of(kind: Kind) -> [u8; ONE_SLOT] {
    let mut image = *b"\x01\x01\x01\0\0\0\0\0\0\0\0\0LANE1   ";
    image[HEADER_LENGTH + KIND_OFFSET] = kind.byte();
    image
}

/// A state that fresh made of bytes that are not zero.
pub fn fresh_state(rt: &impl Print, image: &[u8; ONE_SLOT]) -> [u8; RECORD_BYTES] {
    let mut state = [255; RECORD_BYTES];
    if let Err(refusal) = engine::fresh::fresh(image, &mut state) {
        let _ = writeln!(Pieces(rt), "{refusal}");
    }
    state
}

/// One scan, and its line.
pub fn scan(
    rt: &impl Print,
    name: &str,
    image: &[u8; ONE_SLOT],
    state: &mut [u8; RECORD_BYTES],
    entry: Entry,
) {
    let frame = layout::entry::encode_entry(entry);
    let mut report = [0; REPORT_BYTES];
    let mut journal = [0; 2 * EVENT_BYTES];
    match engine::scan::scan(image, state, &frame, &mut report, &mut journal) {
        Ok(count) => line::print_call(rt, name, &report, &journal, count),
        Err(refusal) => {
            let _ = writeln!(Pieces(rt), "{name:<10} {refusal}");
        }
    }
}
