// One line of the sheet.
ghost use Rattle.std.specs.Prelude.{◌≤◌, ◌+◌, length};
ghost use Rattle.image.specs.Image.{tag_length};
ghost use Rattle.text.specs.Page.{HasRoom, Writes};
ghost use Rattle.sheet.specs.Line.{figure, figures_text, line, refused_line, figure_room, figures_room, line_room};

use figures::figures::Figures;
use image::TAG_LENGTH;
use text::page::Page;

// Room for a space and the ten digits of a number of four bytes.
const FIGURE_ROOM: usize = 11;

/// Room for a line: a tag, six figures and the line feed.
pub const LINE_ROOM: usize = TAG_LENGTH + 6 * FIGURE_ROOM + 1;

// A space, and a number.
fn put_figure(page: &mut Page, n: u32)
    requires { HasRoom figure_room page.old }
    ensures text { Writes (figure n) page.old page.new }
    ensures few { page.new.end ≤ page.old.end + figure_room }
{
    page.put_byte(b' ');
    page.put_decimal(n);
}

// The six figures, and the end of the line.
fn put_figures(page: &mut Page, f: Figures)
    requires { HasRoom figures_room page.old }
    ensures text { Writes (figures_text f) page.old page.new }
    ensures few { page.new.end ≤ page.old.end + figures_room }
{
    put_figure(page, f.starts);
    put_figure(page, f.done);
    put_figure(page, f.failed);
    put_figure(page, f.aborted);
    put_figure(page, f.withdrawn);
    put_figure(page, f.left_open);
    page.put_byte(b'\n');
}

/// A name of at most eight bytes without its spaces, and its figures.
pub fn put_line(page: &mut Page, name: &[u8], f: Figures)
    requires line_room_in_bounds { HasRoom line_room page.old }
    requires name_len_bound { length name.now ≤ tag_length }
    ensures text { Writes (line name.now f) page.old page.new }
    ensures few { page.new.end ≤ page.old.end + line_room }
{
    page.put_name(name);
    put_figures(page, f);
}

/// The line of a refusal.
// A number and no `Check`: any number is printed, and a narrower type would ask more of callers.
pub fn put_refused(page: &mut Page, number: u8)
    requires { HasRoom line_room page.old }
    ensures { Writes (refused_line number) page.old page.new }
{
    page.put_name(b"refused");
    put_figure(page, number as u32);
    page.put_byte(b'\n');
}
