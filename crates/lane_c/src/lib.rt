#![tactic(auto)]

// The archive for C: the functions of `include/lane.h`, each the one of its name in `lane`. Their clauses stand here again, since what a library exports is not in the archive of
// another crate.
ghost use Rattle.std.specs.Prelude.{◌≡◌};
ghost use Rattle.refusal.specs.Refusal.{answer_of};
ghost use Rattle.table.specs.Check.{check_of};
ghost use Rattle.table.specs.Lookup.{find_of};
ghost use Rattle.engine.specs.Fresh.{fresh_of};
ghost use Rattle.engine.specs.Scan.{scan_of};
ghost use Rattle.journal.specs.Check.{check_journal_of};
ghost use Rattle.tidy.specs.Tidy.{tidy_into};
ghost use Rattle.lane.specs.Packed.{fitted, packed, unpacked};

/// Checks a table, an image of 4 + 16 × N bytes (docs/RULES.md, "Table image"): the number of its blocks, 0 to 64. Refusals 1 to 11.
#[unsafe(no_mangle)]
pub extern "C" fn lane_check(image: &[u8]) -> u64
    ensures answer { result ≡ packed (answer_of (check_of image.now)) }
    ensures unpacks { unpacked result ≡ answer_of (check_of image.now) }
{
    lane::lane_check(image)
}

/// Makes the lent state fresh, 40 bytes a block, whatever it holds (docs/RULES.md, "State record"): the number of blocks. Refusals 1 to 11 and 20, which leave the
/// state untouched.
#[unsafe(no_mangle)]
pub extern "C" fn lane_fresh(image: &[u8], state: &mut [u8]) -> u64
    ensures answer { result ≡ packed (answer_of (fresh_of image.now state.old).answer) }
    ensures unpacks { unpacked result ≡ answer_of (fresh_of image.now state.old).answer }
    ensures state { state.new ≡ (fresh_of image.now state.old).state }
{
    lane::lane_fresh(image, state)
}

/// Runs one scan (docs/RULES.md, "One scan"): the number of events written, 0 to 128. State, frame and report have 40, 64 and 16 bytes a block, the journal room for two
/// events of 12 bytes a block or more; clocks and times in the frame are in microseconds. Refusals 1 to 11 and 20 to 41, which leave every lent buffer untouched.
#[unsafe(no_mangle)]
pub extern "C" fn lane_scan(
    image: &[u8],
    state: &mut [u8],
    frame: &[u8],
    report: &mut [u8],
    journal: &mut [u8],
) -> u64
    ensures answer { result
        ≡ packed (answer_of (scan_of image.now state.old (record { frame = frame.now }) report.old journal.old).answer) }
    ensures unpacks { unpacked result
        ≡ answer_of (scan_of image.now state.old (record { frame = frame.now }) report.old journal.old).answer }
    ensures state { state.new
        ≡ (scan_of image.now state.old (record { frame = frame.now }) report.old journal.old).state }
    ensures report { report.new
        ≡ (scan_of image.now state.old (record { frame = frame.now }) report.old journal.old).report }
    ensures journal { journal.new
        ≡ (scan_of image.now state.old (record { frame = frame.now }) report.old journal.old).journal }
{
    lane::lane_scan(image, state, frame, report, journal)
}

/// Finds a tag of eight bytes: the position of its block, from 1. Refusals 1 to 11, 50 and 51.
#[unsafe(no_mangle)]
pub extern "C" fn lane_find(image: &[u8], tag: &[u8]) -> u64
    ensures answer { result ≡ packed (answer_of (find_of image.now tag.now)) }
    ensures unpacks { unpacked result ≡ answer_of (find_of image.now tag.now) }
{
    lane::lane_find(image, tag)
}

/// Writes a table anew, tidy, into the lent buffer of 4 + 16 × max(1, blocks) bytes (docs/RULES.md, "Tidying"): the number of its blocks. Refusals 1 to 11 and 60, which
/// leave the buffer untouched.
#[unsafe(no_mangle)]
pub extern "C" fn lane_tidy(image: &[u8], out: &mut [u8]) -> u64
    ensures answer { result ≡ packed (answer_of (tidy_into image.now out.old).answer) }
    ensures unpacks { unpacked result ≡ answer_of (tidy_into image.now out.old).answer }
    ensures out { out.new ≡ (tidy_into image.now out.old).out }
{
    lane::lane_tidy(image, out)
}

/// Checks a journal, 12 bytes an event, against a table (docs/RULES.md, "A journal from elsewhere"): the number of its events. Refusals 1 to 11, 70 and 71, the latter
/// at the first bad event, from 1.
#[unsafe(no_mangle)]
pub extern "C" fn lane_check_journal(image: &[u8], journal: &[u8]) -> u64
    ensures answer { result ≡ packed (fitted (answer_of (check_journal_of image.now journal.now))) }
    ensures unpacks { unpacked result ≡ fitted (answer_of (check_journal_of image.now journal.now)) }
{
    lane::lane_check_journal(image, journal)
}
