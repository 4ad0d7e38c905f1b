// What is printed of all that came on standard input: the sheet of a journal, or the number of a refusal.
ghost use Rattle.std.specs.Prelude.{◌≡◌, ◌≤◌, Err, OnOk, IfErr, length, take};
ghost use Rattle.layout.specs.Buffer.{put};
ghost use Rattle.journal.specs.Check.{check_journal_of};
ghost use Rattle.text.specs.Page.{HasRoom, Writes};
ghost use Rattle.refusal.specs.Refusal.{check_number};
ghost use Rattle.sheet.specs.Line.{refused_line};
ghost use Rattle.sheet.specs.Sheet.{sheet_room};
ghost use Rattle.sheet.specs.Totals.{table_length, printed, most_input, totals_of};

use crate::line::put_refused;
use crate::sheet::{SHEET_ROOM, put_sheet};
use figures::tally::Tally;
use image::{HEADER_LENGTH, SLOT_COUNT_OFFSET, SLOT_LENGTH};
use journal::check::check_events;
use refusal::{Check, Checked, Refusal};
use table::chain::Chain;
use table::check::check_into;
use table::table::Table;
use text::page::Page;

/// Bytes of the longest input.
pub const MOST_INPUT: usize = 65536;

// How many bytes of the input are the table's: by its header, or all that came if fewer.
fn table_length(input: &[u8]) -> usize
    ensures { result ≡ table_length input.now }
{
    if input.len() <= SLOT_COUNT_OFFSET {
        return input.len();
    }
    let n = HEADER_LENGTH + SLOT_LENGTH * (input[SLOT_COUNT_OFFSET] as usize);
    if input.len() < n {
        return input.len();
    }
    n
}

// The sheet of a table and a journal; where a check fails, nothing is written.
#[tactic(auto, unfolding(journal::specs::Check::check_journal_of))]
fn put_checked(image: &[u8], journal: &[u8], page: &mut Page) -> Checked<()>
    requires journal_len_bound { length journal.now ≤ most_input }
    requires sheet_room_in_bounds { HasRoom sheet_room page.old }
    ensures sheet { OnOk result (Writes (printed (check_journal_of image.now journal.now) image.now journal.now) page.old page.new) }
    ensures refused { IfErr result (λ r. check_journal_of image.now journal.now ≡ Err r) }
    ensures unwritten { IfErr result (λ r. page.new ≡ page.old) }
{
    let mut chain = Chain::new();
    check_into(image, &mut chain)?;
    let table = Table::new(image, &chain);
    check_events(&table, journal)?;
    put_sheet(&table, &Tally::of(journal), page);
    Ok(())
}

// The same of an input, whose length is checked first.
fn put_input(input: &[u8], page: &mut Page) -> Checked<()>
    requires { HasRoom sheet_room page.old }
    ensures sheet { OnOk result (Writes (totals_of input.now) page.old page.new) }
    ensures refused { IfErr result (λ r. refused_line (check_number r.check) ≡ totals_of input.now) }
    ensures unwritten { IfErr result (λ r. page.new ≡ page.old) }
{
    let too_long = MOST_INPUT < input.len();
    if too_long {
        return Err(Refusal::header(Check::InputLength));
    }
    let at = table_length(input);
    put_checked(&input[..at], &input[at..], page)
}

/// What is printed, from the front of the buffer; the number of its bytes. The rest of the buffer stays as it was.
/// `within` follows from the other two, and is said so that a caller can lend `&out[..end]` on.
pub fn totals(input: &[u8], out: &mut [u8; SHEET_ROOM]) -> usize
    ensures end { result ≡ length (totals_of input.now) }
    ensures text { out.new ≡ put 0 (totals_of input.now) out.old }
    ensures within { (result ≤ length out.new) × (result ≡ length (take result out.new)) }
{
    let mut page = Page::new(out);
    if let Err(refusal) = put_input(input, &mut page) {
        put_refused(&mut page, refusal.number());
    }
    page.end
}
