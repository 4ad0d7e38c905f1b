// A refused scan between two accepted ones: the third goes on from where the first left the block.
use crate::frame::{complete, with_job, working};
use crate::line;
use crate::pieces::Pieces;
use crate::single::{ETRIG, ONE_SLOT, fresh_state, image_of, scan};
use block::entry::Entry;
use kind::Kind;
use layout::event::EVENT_BYTES;
use layout::record::RECORD_BYTES;
use layout::report::REPORT_BYTES;
use std::fmt::Write;

// A scan whose journal is a byte too short for the two events of a block.
fn short_scan(
    rt: &impl Print,
    name: &str,
    image: &[u8; ONE_SLOT],
    state: &mut [u8; RECORD_BYTES],
    entry: Entry,
) {
    let frame = layout::entry::encode_entry(entry);
    let mut report = [0; REPORT_BYTES];
    let mut journal = [0; 2 * EVENT_BYTES - 1];
    let answer = engine::scan::scan(image, state, &frame, &mut report, &mut journal);
    let mut out = Pieces(rt);
    let _ = write!(out, "{name:<10} ");
    let _ = match answer {
        Ok(_) => write!(out, "accepted"),
        Err(refusal) => write!(out, "{refusal}"),
    };
    let _ = writeln!(out);
}

/// The three scans.
pub fn run(rt: &impl Print) {
    line::heading(rt, "refused", "job events");
    let image = image_of(Kind::from(ETRIG));
    let mut state = fresh_state(rt, &image);
    scan(rt, "scan 1", &image, &mut state, with_job(7, working(0)));
    short_scan(rt, "scan 2", &image, &mut state, with_job(8, complete(0)));
    scan(rt, "scan 3", &image, &mut state, with_job(9, complete(0)));
}
