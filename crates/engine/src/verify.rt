// Checks 20 to 41, which only read.
ghost use Rattle.std.specs.Prelude.{◌≡◌, ◌*◌, ◌≤◌, OnOk, length};
ghost use Rattle.image.specs.Image.{most_slots};
ghost use Rattle.table.specs.Blocks.{blocks_of};
ghost use Rattle.layout.specs.Buffer.{record_length, entry_length};
ghost use Rattle.engine.specs.Verify.{state_sound, state_check, frame_form, frame_check, lent_check, verify_of};
ghost use Rattle.engine.specs.ScanAccepted.{StateFits, GivenFits};

use crate::told::Told;
use layout::buffer::part_at;
use layout::entry::ENTRY_BYTES;
use layout::event::EVENT_BYTES;
use layout::record::RECORD_BYTES;
use layout::report::REPORT_BYTES;
use refusal::{Check, Checked, Refusal};
use table::table::Table;

/// Check 21: the first position whose record is not sound.
#[tactic(auto, using(refusal::proofs::Rows::refused_at), unfolding(crate::specs::Verify::state_sound))]
fn check_sound(table: &Table, state: &[u8]) -> Checked<()>
    requires { length state.now ≡ record_length * length (blocks_of table.now) }
    ensures { result ≡ state_sound (blocks_of table.now) state.now }
{
    for i in 0..table.len() {
        let kind = table.kind(i);
        if !layout::record::sound_bytes(kind, part_at::<RECORD_BYTES>(state, i)) {
            return Err(Refusal::at_position(Check::Unsound, i as u8 + 1));
        }
    }
    Ok(())
}

/// Checks 20 and 21: a state of an accepted table.
pub fn check_state(table: &Table, state: &[u8]) -> Checked<()>
    ensures { result ≡ state_check (blocks_of table.now) state.now }
{
    if state.len() != RECORD_BYTES * table.len() {
        return Err(Refusal::header(Check::StateLength));
    }
    check_sound(table, state)
}

/// Check 31: the first position whose entry is not in form.
#[tactic(auto, using(refusal::proofs::Rows::refused_at), unfolding(crate::specs::Verify::frame_form))]
fn check_entries(table: &Table, frame: &[u8]) -> Checked<()>
    requires { length frame.now ≡ entry_length * length (blocks_of table.now) }
    ensures { result ≡ frame_form (blocks_of table.now) frame.now }
{
    for i in 0..table.len() {
        if !layout::entry::entry_bytes(part_at::<ENTRY_BYTES>(frame, i)) {
            return Err(Refusal::at_position(Check::EntryForm, i as u8 + 1));
        }
    }
    Ok(())
}

/// Checks 30 and 31: a frame for the table's blocks.
fn check_frame(table: &Table, frame: &[u8]) -> Checked<()>
    ensures { result ≡ frame_check (blocks_of table.now) frame.now }
{
    if frame.len() != ENTRY_BYTES * table.len() {
        return Err(Refusal::header(Check::FrameLength));
    }
    check_entries(table, frame)
}

/// Checks 40 and 41: a report and a journal for the table's blocks.
fn check_lent(table: &Table, report: &[u8], journal: &[u8]) -> Checked<()>
    ensures { result ≡ lent_check (blocks_of table.now) report.now journal.now }
{
    if report.len() != REPORT_BYTES * table.len() {
        return Err(Refusal::header(Check::ReportLength));
    }
    if journal.len() < 2 * EVENT_BYTES * table.len() {
        return Err(Refusal::header(Check::JournalLength));
    }
    Ok(())
}

/// Every check of the scan below the table's, from the top down.
// Slices and no `Lent`: the checks only read, before a `Lent` is made.
#[tactic(auto, unfolding(crate::specs::Verify::verify_of))]
pub fn verify(
    table: &Table,
    told: &Told,
    state: &[u8],
    report: &[u8],
    journal: &[u8],
) -> Checked<()>
    ensures answer { result ≡ verify_of (blocks_of table.now) state.now told.now report.now journal.now }
    ensures state_fits { OnOk result (StateFits (blocks_of table.now) state.now) }
    ensures given_fits { OnOk result (GivenFits (blocks_of table.now) told.now report.now journal.now) }
{
    check_state(table, state)?;
    check_frame(table, told.frame())?;
    check_lent(table, report, journal)
}
