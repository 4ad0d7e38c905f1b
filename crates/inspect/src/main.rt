#![tactic(auto)]

// Prints what check, find, show and tidy answer: two lanes with look-alike tags, an image for each refusal of the table and of lookup, three
// lanes of which two are told apart by an underscore alone, and these three tidied.
ghost use Rattle.std.specs.Prelude.{◌≡◌, ◌<◌, length};
ghost use Rattle.image.specs.Image.{image_length};

use image::{HEADER_LENGTH, SLOT_COUNT_OFFSET, SLOT_LENGTH, START_WIRE_OFFSET, VERSION_OFFSET};
use refusal::Answer;
use std::fmt;
use std::fmt::{InlineText, Write};

// Bytes of an image of one slot.
// As in the other program: each stands on its own.
const ONE_SLOT: usize = HEADER_LENGTH + SLOT_LENGTH;

// Bytes of an image of two slots.
const TWO_SLOTS: usize = HEADER_LENGTH + 2 * SLOT_LENGTH;

// Two blocks of kind 1: LANE0 in slot 1, LANEO in slot 2.
// As in the other program: each stands on its own.
fn two_lanes() -> [u8; TWO_SLOTS]
    ensures { image_length 2 ≡ length result }
{
    *b"\x01\x02\x01\0\x01\x02\0\0\0\0\0\0LANE0   \x01\0\0\0\0\0\0\0LANEO   "
}

// Bytes of an image of three slots.
const THREE_SLOTS: usize = HEADER_LENGTH + 3 * SLOT_LENGTH;

// Three blocks of kind 1, in this order: IN_1 in slot 3, IN1 in slot 1, IN_2 in slot 2.
fn three_lanes() -> [u8; THREE_SLOTS] {
    *b"\x01\x03\x03\0\x01\x02\0\0\0\0\0\0IN1     \x01\0\0\0\0\0\0\0IN_2    \x01\x01\0\0\0\0\0\0IN_1    "
}

// Standard output, written in pieces: each text and each value of a format.
// A piece is a write of its own that is tried for itself, so what a failed write leaves out is that piece alone.
// As in the other program: each stands on its own.
#[derive(Drop)]
struct Pieces<'a, P>(&'a P);

impl<P: Print> Write for Pieces<'_, P> {
    fn write_str(&mut self, text: &str) -> fmt::Result {
        let _ = self.0.write_all(text.as_bytes());
        Ok(())
    }
}

// Bytes in hexadecimal, each after a space and with it one piece.
#[derive(Clone, Copy)]
struct Hex<'a>(&'a [u8]);

impl fmt::Display for Hex<'_> {
    fn fmt<W: fmt::Write>(&self, f: &mut fmt::Formatter<W>) -> fmt::Result {
        for byte in self.0 {
            let text = InlineText::<3>::of(format_args!(" {byte:02x}"));
            f.write_str(text.as_str())?;
        }
        Ok(())
    }
}

fn print_blocks(rt: &impl Print, call: &str, name: &str, answer: Answer) {
    let mut out = Pieces(rt);
    let _ = write!(out, "{call}{name}: ");
    let _ = match answer {
        Ok(blocks) => write!(out, "{blocks} blocks"),
        Err(refusal) => write!(out, "{refusal}"),
    };
    let _ = writeln!(out);
}

fn print_check(rt: &impl Print, name: &str, image: &[u8]) {
    print_blocks(rt, "check ", name, table::check::check(image));
}

fn print_find(rt: &impl Print, image: &[u8], tag: &str) {
    let mut out = Pieces(rt);
    let _ = write!(out, "find '{tag}': ");
    let _ = match table::lookup::find(image, tag.as_bytes()) {
        Ok(position) => writeln!(out, "position {position}"),
        Err(refusal) => writeln!(out, "{refusal}"),
    };
}

fn print_show(rt: &impl Print, image: &[u8], tag: &str) {
    let slot = Hex(table::lookup::show(image, tag.as_bytes()));
    let _ = writeln!(Pieces(rt), "show '{tag}':{slot}");
}

fn look_up(rt: &impl Print, image: &[u8], tag: &str) {
    print_find(rt, image, tag);
    print_show(rt, image, tag);
}

// The two lanes with one byte changed.
fn check_changed(rt: &impl Print, name: &str, at: usize, byte: u8)
    requires { at < image_length 2 }
{
    let mut image = two_lanes();
    image[at] = byte;
    print_check(rt, name, &image);
}

fn check_headers(rt: &impl Print) {
    print_check(rt, "short image", &[1, 2, 1]);
    check_changed(rt, "version 2", 0, 2);
    check_changed(rt, "no slots", 1, 0);
    check_changed(rt, "three slots in 36 bytes", 1, 3);
}

fn check_chains(rt: &impl Print) {
    check_changed(rt, "head above N", 2, 9);
    check_changed(rt, "next above N", 21, 9);
    check_changed(rt, "next already met", 21, 1);
}

fn check_records(rt: &impl Print) {
    check_changed(rt, "kind 0", 4, 0);
    check_changed(rt, "small letter in a tag", 28, b'l');
    check_changed(rt, "underscore first in a tag", 28, b'_');
    check_changed(rt, "tag of an earlier block", 32, b'0');
    check_changed(rt, "wire to no slot", 6, 9);
    check_changed(rt, "abort code without abort", 25, 1);
    check_changed(rt, "spare slot not zero", 2, 2);
}

// IN_1, IN1 and IN_2, each found in its own slot; a tag may end in an underscore and not begin with one.
fn look_up_underscores(rt: &impl Print) {
    let image = three_lanes();
    print_check(rt, "three lanes", &image);
    look_up(rt, &image, "IN_1    ");
    look_up(rt, &image, "IN1     ");
    look_up(rt, &image, "IN_2    ");
    look_up(rt, &image, "IN_     ");
    look_up(rt, &image, "_IN1    ");
}

fn print_tidy(rt: &impl Print, name: &str, image: &[u8], out: &mut [u8]) {
    print_blocks(rt, "tidy ", name, tidy::tidy::tidy(image, out));
}

// The three lanes, IN_2 wired to the done flag of IN_1. Tidied they stand in slots 1, 2 and 3: found at the same positions, shown with another next
// slot and another slot in the wire.
fn tidy_three(rt: &impl Print) {
    let mut image = three_lanes();
    image[HEADER_LENGTH + SLOT_LENGTH + START_WIRE_OFFSET] = 3;
    image[HEADER_LENGTH + SLOT_LENGTH + START_WIRE_OFFSET + 1] = 1;
    print_show(rt, &image, "IN_2    ");
    let mut short = [0; TWO_SLOTS];
    print_tidy(rt, "three lanes into 36 bytes", &image, &mut short);
    let mut tidied = [0; THREE_SLOTS];
    print_tidy(rt, "three lanes", &image, &mut tidied);
    look_up(rt, &tidied, "IN_1    ");
    look_up(rt, &tidied, "IN1     ");
    look_up(rt, &tidied, "IN_2    ");
}

// A table without blocks becomes one zero slot.
fn tidy_none(rt: &impl Print) {
    let mut image = [0; THREE_SLOTS];
    image[VERSION_OFFSET] = 1;
    image[SLOT_COUNT_OFFSET] = 3;
    let mut tidied = [255; ONE_SLOT];
    print_tidy(rt, "three spare slots", &image, &mut tidied);
    let _ = writeln!(Pieces(rt), "image:{}", Hex(&tidied));
}

fn run(rt: &impl Print) {
    let image = two_lanes();
    print_check(rt, "two lanes", &image);
    look_up(rt, &image, "LANE0   ");
    look_up(rt, &image, "LANEO   ");
    check_headers(rt);
    check_chains(rt);
    check_records(rt);
    look_up(rt, &image, "lane0   ");
    look_up(rt, &image, "LANE0");
    look_up(rt, &image, "LANE1   ");
    look_up_underscores(rt);
    tidy_three(rt);
    tidy_none(rt);
}

fn main(rt: HostRuntime) {
    run(&rt);
}
