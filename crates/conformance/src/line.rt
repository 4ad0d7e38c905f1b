// The line of a call: its name, its report entry and its events.
use crate::names::{EventText, FlagName, StepName};
use crate::pieces::Pieces;
use layout::event::{EVENT_BYTES, decode_event};
use layout::record::decode_flags;
use layout::report::{REPORT_BYTES, Report};
use std::fmt;
use std::fmt::{InlineText, Write};

/// The names of the columns; the first and those from the job on are the caller's.
pub fn heading(rt: &impl Print, first: &str, last: &str) {
    let _ = write!(
        Pieces(rt),
        "{first:<10} {:<6} {:<6} {:<9} {:<7} {:<5} ",
        "passes",
        "pieces",
        "step",
        "flags",
        "code"
    );
    let _ = println!(rt; "{last}");
}

/// A number in a column of this width, and the space after it: one piece.
// 24 bytes hold any number and the space.
#[derive(Clone, Copy)]
struct NumberColumn(u64, usize);

impl fmt::Display for NumberColumn {
    fn fmt<W: fmt::Write>(&self, f: &mut fmt::Formatter<W>) -> fmt::Result {
        let NumberColumn(number, width) = *self;
        let text = InlineText::<24>::of(format_args!("{number:<width$} "));
        f.write_str(text.as_str())
    }
}

/// A report entry but for the job, in columns.
#[derive(Clone, Copy)]
struct Columns(Report);

impl fmt::Display for Columns {
    fn fmt<W: fmt::Write>(&self, f: &mut fmt::Formatter<W>) -> fmt::Result {
        let Report {
            flags,
            used,
            passes,
            step,
            code,
            ..
        } = self.0;
        let passes = NumberColumn(u64::from(passes), 6);
        let used = NumberColumn(u64::from(used), 6);
        let step = StepName(step);
        let flags = FlagName(decode_flags(flags));
        let code = NumberColumn(u64::from(code), 5);
        write!(f, "{passes}{used}{step:<9} {flags:<7} {code}")
    }
}

/// The report entry of one block of several, whole.
pub fn print_report(rt: &impl Print, name: &str, entry: &[u8; REPORT_BYTES]) {
    let report = Report::read(entry);
    let _ = writeln!(Pieces(rt), "{name:<10} {}{}", Columns(report), report.job);
}

/// The first events of a journal, "-" for none.
// A journal and a count: the room for events is longer than what a scan wrote.
#[derive(Clone, Copy)]
struct Events<'a> {
    journal: &'a [u8],
    count: usize,
}

impl fmt::Display for Events<'_> {
    fn fmt<W: fmt::Write>(&self, f: &mut fmt::Formatter<W>) -> fmt::Result {
        if self.count == 0 {
            write!(f, "-")?;
        }
        for (i, bytes) in self
            .journal
            .chunks_exact(EVENT_BYTES)
            .take(self.count)
            .enumerate()
        {
            let separator = if i == 0 { "" } else { ", " };
            let event = EventText(decode_event(bytes).event);
            write!(f, "{separator}{event}")?;
        }
        Ok(())
    }
}

/// The report entry of the only block, and the events of its call.
pub fn print_call(
    rt: &impl Print,
    name: &str,
    entry: &[u8; REPORT_BYTES],
    journal: &[u8],
    count: usize,
) {
    let report = Report::read(entry);
    let job = NumberColumn(report.job, 3);
    let events = Events { journal, count };
    let _ = writeln!(Pieces(rt), "{name:<10} {}{job}{events}", Columns(report));
}
