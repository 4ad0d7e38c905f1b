#![tactic(auto)]

// Shift totals: reads a table and then a journal from standard input, and prints the sheet, or the number of the refusal. All that it prints on
// standard output is what `sheet::totals::totals` makes of the bytes that came.
ghost use Rattle.std.specs.Prelude.{◌≡◌, ◌≤◌, ◌<◌, IfErr, IfOk, IfSome, OnOk, length, take};
ghost use Rattle.std.specs.Io.KnownBytes.{Appends, Consumes, IsAtEnd, Keeps};
ghost use Rattle.sheet.specs.Totals.{totals_of};
ghost use Rattle.totals.specs.Failure.{IsOfInput, came_count};

use sheet::sheet::SHEET_ROOM;
use sheet::totals::{MOST_INPUT, totals};
use std::env::{Env, FillError};
use std::io;
use std::io::{ErrorKind, Read, Write};

// One byte more than an input may have, so that a longer one is seen.
const INPUT_ROOM: usize = MOST_INPUT + 1;

// A read that failed, and how many bytes had come before it.
#[derive(Drop)]
struct Cut {
    count: usize,
    error: io::Error,
}

// Reads until the buffer is full, the input ends or a read fails: a pipe may give any part at a time. How many bytes came.
// A loop over `read`, not std's `read_to_end`, which wants a `Vec` and reads to the end, however long the input.
fn read_input<R: Read>(reader: &mut R, input: &mut [u8]) -> Result<usize, Cut>
    ensures count { (came_count result ≤ length input.new) × (came_count result ≡ length (take (came_count result) input.new)) }
    ensures came { Consumes (R.remaining reader.old) (R.remaining reader.new) (take (came_count result) input.new) }
    ensures all { IfOk result (λ count. count < length input.new → IsAtEnd (R.remaining reader.new)) }
{
    let mut count = 0;
    while count < input.len() {
        match reader.read(&mut input[count..]) {
            Ok(0) => return Ok(count),
            Ok(more) => count += more,
            Err(error) => return Err(Cut { count, error }),
        }
    }
    Ok(count)
}

// Why there is no sheet, or not all of it.
#[derive(Drop)]
enum Failure {
    Input(io::Error),
    Output(io::Error),
}

// Reads the input and writes what is printed of it: of a reader whose bytes are known, all of them. Where a read fails, nothing is written.
fn print_totals<R: Read, W: Write>(reader: &mut R, writer: &mut W) -> Result<(), Failure>
    ensures sheet { OnOk result (IfSome (R.remaining reader.old)
        (λ input. Appends (W.contents writer.old) (W.contents writer.new) (totals_of input))) }
    ensures unread { IfErr result (λ failure. IsOfInput failure → Keeps (W.contents writer.old) (W.contents writer.new)) }
{
    let mut input = [0; INPUT_ROOM];
    let came = read_input(reader, &mut input);
    let count = came.map_err(|cut| Failure::Input(cut.error))?;
    let mut out = [0u8; SHEET_ROOM];
    let end = totals(&input[..count], &mut out);
    let wrote = writer.write_all(&out[..end]);
    wrote.map_err(Failure::Output)?;
    Ok(())
}

fn has_arguments(rt: &impl Env) -> bool {
    match rt.arg(1, &mut []) {
        Err(FillError::NotPresent) => false,
        _ => true,
    }
}

// Where nobody reads the output any more, the program ends quietly; any other failure is said on standard error.
fn say(rt: &impl Eprint, failure: Failure) {
    match failure {
        Failure::Input(error) => {
            let _ = eprintln!(rt; "totals: standard input: {error}");
        }
        Failure::Output(error) => {
            if error.kind() != ErrorKind::BrokenPipe {
                let _ = eprintln!(rt; "totals: standard output: {error}");
            }
        }
    }
}

fn main(rt: HostRuntime) {
    if has_arguments(&rt) {
        let _ = eprintln!(rt;
            "totals: takes no arguments; the table and the journal come on standard input"
        );
        return;
    }
    if let Err(failure) = print_totals(&mut rt.stdin(), &mut rt.stdout()) {
        say(&rt, failure);
    }
}
