// One scan.
ghost use Rattle.std.specs.Prelude.{◌≡◌};
ghost use Rattle.refusal.specs.Refusal.{answer_of};
ghost use Rattle.table.specs.Blocks.{blocks_of};
ghost use Rattle.engine.specs.Scan.{scan_blocks, scan_of};

use crate::lent::Lent;
use crate::told::Told;
use crate::verify::verify;
use refusal::Answer;
use table::chain::Chain;
use table::check::check_into;
use table::table::Table;

/// Checks 20 to 41 over an accepted table's blocks, then the work; a failed check leaves every lent buffer untouched.
#[tactic(auto, unfolding(crate::specs::Scan::scan_blocks))]
fn scan_table(
    table: &Table,
    told: &Told,
    state: &mut [u8],
    report: &mut [u8],
    journal: &mut [u8],
) -> Answer
    ensures { record { answer = result; state = state.new; report = report.new; journal = journal.new }
        ≡ scan_blocks (blocks_of table.now) state.old told.now report.old journal.old }
{
    verify(table, told, state, report, journal)?;
    let mut lent = Lent {
        state,
        report,
        journal,
        events: 0,
    };
    lent.serve_all(table, told);
    Ok(lent.events)
}

/// One scan over the lent buffers: the number of events, or the first check that fails.
#[tactic(auto, unfolding(crate::specs::Scan::scan_of))]
pub fn scan(
    image: &[u8],
    state: &mut [u8],
    frame: &[u8],
    report: &mut [u8],
    journal: &mut [u8],
) -> Answer
    ensures answer { result
        ≡ (scan_of image.now state.old (record { frame = frame.now }) report.old journal.old).answer }
    ensures numbers { answer_of result
        ≡ answer_of (scan_of image.now state.old (record { frame = frame.now }) report.old journal.old).answer }
    ensures state { state.new
        ≡ (scan_of image.now state.old (record { frame = frame.now }) report.old journal.old).state }
    ensures report { report.new
        ≡ (scan_of image.now state.old (record { frame = frame.now }) report.old journal.old).report }
    ensures journal { journal.new
        ≡ (scan_of image.now state.old (record { frame = frame.now }) report.old journal.old).journal }
{
    let mut chain = Chain::new();
    // Taken apart by let else and not by `?`: the form is fixed for the scan, whose refusal is passed out unchanged.
    let answer = check_into(image, &mut chain);
    let Ok(_) = answer else {
        return answer;
    };
    let table = Table::new(image, &chain);
    scan_table(&table, &Told::new(frame), state, report, journal)
}
