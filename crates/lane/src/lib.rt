#![tactic(auto)]

// The entry points, which crate lane_c exports to C. Each takes any slices, and answers one number (docs/RULES.md, "Answers"): a value, or a refusal's number × 2^32 + its place; 2^32 - 1
// stands for every greater value or place.
ghost use Rattle.std.specs.Prelude.{◌≡◌};
ghost use Rattle.refusal.specs.Refusal.{answer_of};
ghost use Rattle.table.specs.Check.{check_of};
ghost use Rattle.table.specs.Lookup.{find_of};
ghost use Rattle.engine.specs.Fresh.{fresh_of};
ghost use Rattle.engine.specs.Scan.{scan_of};
ghost use Rattle.journal.specs.Check.{check_journal_of};
ghost use Rattle.tidy.specs.Tidy.{tidy_into};
ghost use Rattle.lane.specs.Packed.{saturated, fitted, packed, unpacked};

use refusal::Answer;

/// What a refusal's number weighs in an answer, 2^32.
pub const NUMBER_WEIGHT: u64 = 4294967296;

// A number for the lower half of an answer.
fn saturate(n: usize) -> u64
    ensures { result ≡ saturated n }
{
    (n as u64).min(NUMBER_WEIGHT - 1)
}

// An answer as one number, as the C interface has it: a value, or a refusal's number and place.
#[tactic(auto, unfolding(crate::specs::Packed::packed, crate::specs::Packed::fitted))]
fn pack(answer: Answer) -> u64
    ensures { result ≡ packed (fitted (answer_of answer)) }
{
    match answer {
        Ok(value) => saturate(value),
        Err(refusal) => refusal.number() as u64 * NUMBER_WEIGHT + saturate(refusal.place()),
    }
}

/// Checks a table, an image of 4 + 16 × N bytes (docs/RULES.md, "Table image"): the number of its blocks, 0 to 64. Refusals 1 to 11.
#[tactic(auto, using(crate::proofs::PackedLaws::unpacks, crate::proofs::PackedLaws::check_fitted))]
pub fn lane_check(image: &[u8]) -> u64
    ensures answer { result ≡ packed (answer_of (check_of image.now)) }
    ensures unpacks { unpacked result ≡ answer_of (check_of image.now) }
{
    pack(table::check::check(image))
}

/// Makes the lent state fresh, 40 bytes a block, whatever it holds (docs/RULES.md, "State record"): the number of blocks. Refusals 1 to 11 and 20, which leave the
/// state untouched.
#[tactic(auto, using(crate::proofs::PackedLaws::unpacks, crate::proofs::PackedLaws::fresh_fitted))]
pub fn lane_fresh(image: &[u8], state: &mut [u8]) -> u64
    ensures answer { result ≡ packed (answer_of (fresh_of image.now state.old).answer) }
    ensures unpacks { unpacked result ≡ answer_of (fresh_of image.now state.old).answer }
    ensures state { state.new ≡ (fresh_of image.now state.old).state }
{
    pack(engine::fresh::fresh(image, state))
}

/// Runs one scan (docs/RULES.md, "One scan"): the number of events written, 0 to 128. State, frame and report have 40, 64 and 16 bytes a block, the journal room for two
/// events of 12 bytes a block or more; clocks and times in the frame are in microseconds. Refusals 1 to 11 and 20 to 41, which leave every lent buffer untouched.
#[tactic(auto, using(crate::proofs::PackedLaws::unpacks, crate::proofs::PackedLaws::scan_fitted))]
pub fn lane_scan(
    image: &[u8],
    state: &mut [u8],
    frame: &[u8],
    report: &mut [u8],
    journal: &mut [u8],
) -> u64
    ensures answer { result
        ≡ packed (answer_of (scan_of image.now state.old (record { frame = frame.now }) report.old journal.old).answer) }
    ensures unpacks { unpacked result
        ≡ answer_of (scan_of image.now state.old (record { frame = frame.now }) report.old journal.old).answer }
    ensures state { state.new
        ≡ (scan_of image.now state.old (record { frame = frame.now }) report.old journal.old).state }
    ensures report { report.new
        ≡ (scan_of image.now state.old (record { frame = frame.now }) report.old journal.old).report }
    ensures journal { journal.new
        ≡ (scan_of image.now state.old (record { frame = frame.now }) report.old journal.old).journal }
{
    pack(engine::scan::scan(image, state, frame, report, journal))
}

/// Finds a tag of eight bytes: the position of its block, from 1. Refusals 1 to 11, 50 and 51.
#[tactic(auto, using(crate::proofs::PackedLaws::unpacks, crate::proofs::PackedLaws::find_fitted))]
pub fn lane_find(image: &[u8], tag: &[u8]) -> u64
    ensures answer { result ≡ packed (answer_of (find_of image.now tag.now)) }
    ensures unpacks { unpacked result ≡ answer_of (find_of image.now tag.now) }
{
    pack(table::lookup::find(image, tag))
}

/// Writes a table anew, tidy, into the lent buffer of 4 + 16 × max(1, blocks) bytes (docs/RULES.md, "Tidying"): the number of its blocks. Refusals 1 to 11 and 60, which
/// leave the buffer untouched.
#[tactic(auto, using(crate::proofs::PackedLaws::unpacks, crate::proofs::PackedLaws::tidy_fitted))]
pub fn lane_tidy(image: &[u8], out: &mut [u8]) -> u64
    ensures answer { result ≡ packed (answer_of (tidy_into image.now out.old).answer) }
    ensures unpacks { unpacked result ≡ answer_of (tidy_into image.now out.old).answer }
    ensures out { out.new ≡ (tidy_into image.now out.old).out }
{
    pack(tidy::tidy::tidy(image, out))
}

/// Checks a journal, 12 bytes an event, against a table (docs/RULES.md, "A journal from elsewhere"): the number of its events. Refusals 1 to 11, 70 and 71, the latter
/// at the first bad event, from 1.
#[tactic(auto, using(crate::proofs::PackedLaws::unpacks))]
pub fn lane_check_journal(image: &[u8], journal: &[u8]) -> u64
    ensures answer { result ≡ packed (fitted (answer_of (check_journal_of image.now journal.now))) }
    ensures unpacks { unpacked result ≡ fitted (answer_of (check_journal_of image.now journal.now)) }
{
    pack(journal::check::check_journal(image, journal))
}
