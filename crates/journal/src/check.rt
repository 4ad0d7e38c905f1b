// A journal judged event by event: checks 70 and 71.
ghost use Rattle.std.specs.Prelude.{◌≡◌, ◌≤◌, true};
ghost use Rattle.membership.specs.Membership.{within};
ghost use Rattle.image.specs.Image.{most_slots};
ghost use Rattle.refusal.specs.Refusal.{answer_of};
ghost use Rattle.table.specs.Blocks.{blocks_of};
ghost use Rattle.journal.specs.Check.{none_open, is_good, first_bad, events_of, journal_verdict, check_journal_of};
ghost use Rattle.journal.specs.OpenJob.{option_of, jobs_of};

use crate::jobs::OpenJobs;
use crate::turns::takes_turn;
use layout::event::{EVENT_BYTES, Posted, decode_event};
use refusal::{Answer, Check, Checked, Place, Refusal};
use table::chain::Chain;
use table::check::check_into;
use table::table::Table;

// Whether a table of so many blocks has this position.
// Two tests: `(1..=count).contains(..)` would want the position as a `usize` and a reference to it, and is no plainer.
fn is_position(position: u8, count: usize) -> bool
    ensures { result ≡ within 1 count position }
{
    (1 <= position) & (position as usize <= count)
}

// Whether an event is good after those that left these jobs open: a position in the table, and its block's turn.
#[inline(always)]
#[tactic(auto, unfolding(crate::specs::Check::is_good))]
fn is_good(table: &Table, open_jobs: &OpenJobs, posted: Posted) -> bool
    ensures good { result ≡ is_good (blocks_of table.now) (jobs_of open_jobs.now) posted }
    ensures inside { result ≡ true → posted.position ≤ most_slots }
{
    if !is_position(posted.position, table.len()) {
        return false;
    }
    let kind = table.kind(posted.position as usize - 1);
    takes_turn(kind, open_jobs.get(posted.position), posted.event)
}

// The number of the first bad event, from 1.
fn first_bad(table: &Table, journal: &[u8]) -> Option<usize>
    ensures { option_of result ≡ first_bad (blocks_of table.now) none_open 0 (events_of journal.now) }
{
    let mut open_jobs = OpenJobs::new();
    let (events, _) = journal.as_chunks::<EVENT_BYTES>();
    for (i, bytes) in events.iter().enumerate() {
        let posted = decode_event(bytes);
        if !is_good(table, &open_jobs, posted) {
            return Some(i + 1);
        }
        open_jobs.set(posted);
    }
    None
}

/// 70 and 71 over an accepted table's blocks.
pub fn check_events(table: &Table, journal: &[u8]) -> Checked<()>
    ensures { result ≡ journal_verdict (blocks_of table.now) journal.now }
{
    if journal.len() % EVENT_BYTES != 0 {
        return Err(Refusal::header(Check::EventsLength));
    }
    match first_bad(table, journal) {
        None => Ok(()),
        Some(bad) => Err(Refusal {
            check: Check::EventForm,
            place: Place::Event(bad),
        }),
    }
}

/// A journal checked against a table: the number of its events, or the first check that fails.
#[tactic(auto, unfolding(crate::specs::Check::check_journal_of))]
pub fn check_journal(image: &[u8], journal: &[u8]) -> Answer
    ensures answer { result ≡ check_journal_of image.now journal.now }
    ensures numbers { answer_of result ≡ answer_of (check_journal_of image.now journal.now) }
{
    let mut chain = Chain::new();
    check_into(image, &mut chain)?;
    check_events(&Table::new(image, &chain), journal)?;
    Ok(journal.len() / EVENT_BYTES)
}
