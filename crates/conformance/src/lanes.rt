// LANE0 beside LANEO: two lanes with look-alike tags, each with its own truck. A job is the appointment number of a truck.
use crate::frame::{complete, with_job, working};
use crate::line;
use crate::names::EventText;
use crate::pieces::Pieces;
use block::entry::Entry;
use image::{HEADER_LENGTH, SLOT_LENGTH};
use layout::entry::ENTRY_BYTES;
use layout::event::{EVENT_BYTES, decode_event};
use layout::record::RECORD_BYTES;
use layout::report::REPORT_BYTES;
use refusal::Answer;
use std::fmt::Write;

// Appointment numbers that agree in their low four bytes.
const FIRST_TRUCK: u64 = 1001;

const SECOND_TRUCK: u64 = 4294967296 * 256 + FIRST_TRUCK;

const THIRD_TRUCK: u64 = 4294967296 + FIRST_TRUCK;

const FOURTH_TRUCK: u64 = 4294967296 * 4294967295 + FIRST_TRUCK;

const FIRST_TAG: &str = "LANE0   ";

const SECOND_TAG: &str = "LANEO   ";

// Bytes of an image of two slots.
const TWO_SLOTS: usize = HEADER_LENGTH + 2 * SLOT_LENGTH;

// Two blocks of kind 1: LANE0 in slot 1, LANEO in slot 2.
// Beside that of `single`: two blocks, each with a tag.
fn image() -> [u8; TWO_SLOTS] {
    *b"\x01\x02\x01\0\x01\x02\0\0\0\0\0\0LANE0   \x01\0\0\0\0\0\0\0LANEO   "
}

fn position_of(tag: &str) -> Answer {
    table::lookup::find(&image(), tag.as_bytes())
}

fn print_found(rt: &impl Print, tag: &str) {
    let mut out = Pieces(rt);
    let _ = write!(out, "{tag:<10} ");
    let _ = match position_of(tag) {
        Ok(position) => writeln!(out, "position {position}"),
        Err(refusal) => writeln!(out, "{refusal}"),
    };
}

// The report entry of a tag, by its position.
fn print_lane(rt: &impl Print, tag: &str, report: &[u8; 2 * REPORT_BYTES]) {
    let (entries, _) = report.as_chunks::<REPORT_BYTES>();
    match position_of(tag) {
        Ok(1) => line::print_report(rt, tag, &entries[0]),
        Ok(2) => line::print_report(rt, tag, &entries[1]),
        _ => {
            let mut out = Pieces(rt);
            let _ = write!(out, "{tag:<10} ");
            let _ = writeln!(out);
        }
    }
}

// The tag that is found at a position, without its spaces.
fn tag_at(position: usize) -> &'static str {
    if position_of(FIRST_TAG) == Ok(position) {
        return FIRST_TAG.trim_end();
    }
    if position_of(SECOND_TAG) == Ok(position) {
        return SECOND_TAG.trim_end();
    }
    "?"
}

// The first events of the journal, each with the tag of its block.
// Beside `Events` of `line`: before each event stands the tag of its block.
fn print_journal(rt: &impl Print, journal: &[u8], count: usize) {
    let mut out = Pieces(rt);
    let _ = write!(out, "{:<10} ", "journal");
    for (i, bytes) in journal.chunks_exact(EVENT_BYTES).take(count).enumerate() {
        let separator = if i == 0 { "" } else { ", " };
        let posted = decode_event(bytes);
        let tag = tag_at(usize::from(posted.position));
        let event = EventText(posted.event);
        let _ = write!(out, "{separator}");
        let _ = print!(rt; "{tag} ");
        let _ = write!(out, "{event}");
    }
    let _ = writeln!(out);
}

fn frame_of(first: Entry, second: Entry) -> [u8; 2 * ENTRY_BYTES] {
    let mut frame = [0; 2 * ENTRY_BYTES];
    layout::entry::write_entry(&mut frame, first);
    layout::entry::write_entry(&mut frame[ENTRY_BYTES..], second);
    frame
}

// Beside that of `single`: two entries, and the lines of two lanes and of their journal.
fn scan(
    rt: &impl Print,
    name: &str,
    state: &mut [u8; 2 * RECORD_BYTES],
    first: Entry,
    second: Entry,
) {
    let frame = frame_of(first, second);
    let mut report = [0; 2 * REPORT_BYTES];
    let mut journal = [0; 4 * EVENT_BYTES];
    match engine::scan::scan(&image(), state, &frame, &mut report, &mut journal) {
        Ok(count) => {
            line::heading(rt, name, "truck");
            print_lane(rt, FIRST_TAG, &report);
            print_lane(rt, SECOND_TAG, &report);
            print_journal(rt, &journal, count);
        }
        Err(refusal) => {
            let _ = writeln!(Pieces(rt), "{name:<10} {refusal}");
        }
    }
}

// Beside that of `single`: two blocks, lengths in the types, and lines of its own.
fn fresh_state(rt: &impl Print) -> [u8; 2 * RECORD_BYTES] {
    let mut state = [255; 2 * RECORD_BYTES];
    let mut out = Pieces(rt);
    let _ = match engine::fresh::fresh(&image(), &mut state) {
        Ok(count) => writeln!(out, "{:<10} {count} blocks", "fresh"),
        Err(refusal) => writeln!(out, "{:<10} {refusal}", "fresh"),
    };
    state
}

/// After the first scan the frame names the next trucks, for which neither block is free yet.
pub fn run(rt: &impl Print) {
    print_found(rt, FIRST_TAG);
    print_found(rt, SECOND_TAG);
    let mut state = fresh_state(rt);
    scan(
        rt,
        "scan 1",
        &mut state,
        with_job(FIRST_TRUCK, working(0)),
        with_job(SECOND_TRUCK, working(0)),
    );
    scan(
        rt,
        "scan 2",
        &mut state,
        with_job(THIRD_TRUCK, working(0)),
        with_job(FOURTH_TRUCK, complete(0)),
    );
    scan(
        rt,
        "scan 3",
        &mut state,
        with_job(THIRD_TRUCK, complete(0)),
        with_job(FOURTH_TRUCK, working(0)),
    );
}
