// All lines of the sheet.
ghost use Rattle.std.specs.Prelude.{◌≡◌, ◌+◌, ◌*◌, ◌<◌, ◌≤◌, length};
ghost use Rattle.table.specs.Blocks.{blocks_of, block_at};
ghost use Rattle.text.specs.Page.{HasRoom, Writes};
ghost use Rattle.figures.specs.Tally.{counts_of, figures_in, RowsFit};
ghost use Rattle.sheet.specs.Line.{line, line_room};
ghost use Rattle.sheet.specs.Sheet.{lines_to, sums_to, sheet_of, sheet_room};

use crate::line::{LINE_ROOM, put_line};
use figures::figures::{Figures, figures_at};
use figures::tally::Tally;
use image::MOST_SLOTS;
use table::table::Table;
use text::page::Page;

/// Room for a line for each block, and the last one.
pub const SHEET_ROOM: usize = LINE_ROOM * (MOST_SLOTS + 1);

// The line of block i.
fn put_block(table: &Table, i: usize, f: Figures, page: &mut Page)
    requires i_in_bounds { i < length (blocks_of table.now) }
    requires line_room_in_bounds { HasRoom line_room page.old }
    ensures text { Writes (line (block_at (blocks_of table.now) i).tag f) page.old page.new }
    ensures few { page.new.end ≤ page.old.end + line_room }
{
    put_line(page, table.tag(i), f);
}

// The lines of all blocks; their column sums.
fn put_blocks(table: &Table, tally: &Tally, page: &mut Page) -> Figures
    requires rows_fit { RowsFit (counts_of tally.now) (length (blocks_of table.now)) }
    requires sheet_room_in_bounds { HasRoom sheet_room page.old }
    ensures text { Writes (lines_to (blocks_of table.now) (figures_in (counts_of tally.now)) (length (blocks_of table.now))) page.old page.new }
    ensures room { HasRoom line_room page.new }
    ensures sums { result ≡ sums_to (figures_in (counts_of tally.now)) (length (blocks_of table.now)) }
{
    let count = table.len();
    let mut sums = Figures::default();
    for i in 0..count {
        let f = figures_at(tally, (i + 1) as u8);
        put_block(table, i, f, page);
        sums = sums + f;
    }
    sums
}

/// The sheet by the counts of a journal.
pub fn put_sheet(table: &Table, tally: &Tally, page: &mut Page)
    requires rows_fit { RowsFit (counts_of tally.now) (length (blocks_of table.now)) }
    requires sheet_room_in_bounds { HasRoom sheet_room page.old }
    ensures { Writes (sheet_of (blocks_of table.now) (figures_in (counts_of tally.now))) page.old page.new }
{
    let sums = put_blocks(table, tally, page);
    put_line(page, b"TOTAL", sums);
}
