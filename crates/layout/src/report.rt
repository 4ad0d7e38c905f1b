// A report entry as bytes, and back.
ghost use Rattle.std.specs.Prelude.{◌≡◌, ◌++◌, ◌≤◌, length, drop};
ghost use Rattle.block.specs.CallResult.{outcome_of};
ghost use Rattle.layout.specs.Buffer.{report_length};
ghost use Rattle.layout.specs.ReportLayout.{report_of, encode_fields, decode_report, encode_report, working_report};

use crate::record::BUSY_ALONE;
use block::call::CallResult;
use block::record::Record;
use words::{put_at, read_at};

/// Bytes of a report entry.
pub const REPORT_BYTES: usize = 16;

// Where its fields begin.
const FLAGS_OFFSET: usize = 0;

/// Where the pieces used stand.
pub const USED_OFFSET: usize = 1;

/// Where the passes stand.
pub const PASSES_OFFSET: usize = 2;

/// Where the step stands.
pub const STEP_OFFSET: usize = 3;

/// Where the code begins, two bytes.
pub const CODE_OFFSET: usize = 4;

/// Where the job begins, eight bytes.
pub const JOB_OFFSET: usize = 8;

/// What a report entry states of a call. `flags` is the byte of flags; `used` are the pieces used.
// The byte of flags, and no `Flags`: an entry is read off any bytes, and `Flags` would drop bits 4 to 7.
#[derive(Clone, Copy)]
pub struct Report {
    pub flags: u8,
    pub used: u8,
    pub passes: u8,
    pub step: u8,
    pub code: u16,
    pub job: u64,
}

impl Report {
    /// What a call leaves.
    pub fn of(a: CallResult) -> Report
        ensures { result ≡ report_of (outcome_of a) }
    {
        Report {
            flags: crate::record::flags_byte(a.next.flags),
            used: a.used,
            passes: a.passes,
            step: a.next.step,
            code: a.next.code,
            job: a.next.job,
        }
    }

    /// The entry in its bytes.
    pub fn read(s: &[u8; REPORT_BYTES]) -> Report
        ensures { result ≡ decode_report s.now }
    {
        Report {
            flags: s[FLAGS_OFFSET],
            used: s[USED_OFFSET],
            passes: s[PASSES_OFFSET],
            step: s[STEP_OFFSET],
            code: read_at(s, CODE_OFFSET),
            job: read_at(s, JOB_OFFSET),
        }
    }

    /// The first bytes of what is lent become the entry.
    pub fn write(self, out: &mut [u8])
        requires { report_length ≤ length out.old }
        ensures { out.new ≡ encode_fields self ++ drop report_length out.old }
    {
        put_at(out, FLAGS_OFFSET, self.flags);
        put_at(out, USED_OFFSET, self.used);
        put_at(out, PASSES_OFFSET, self.passes);
        put_at(out, STEP_OFFSET, self.step);
        // With the two zero bytes after it: apart they cost an idle block two stores more.
        put_at(out, CODE_OFFSET, self.code as u32);
        put_at(out, JOB_OFFSET, self.job);
    }
}

/// The first bytes of what is lent become the entry of a call.
#[tactic(auto, unfolding(crate::specs::ReportLayout::encode_report))]
pub fn write_report(out: &mut [u8], a: CallResult)
    requires { report_length ≤ length out.old }
    ensures { out.new ≡ encode_report (outcome_of a) ++ drop report_length out.old }
{
    Report::of(a).write(out);
}

#[tactic(auto, unfolding(words::specs::Word::bytes))]
/// The first bytes of what is lent become the entry of a call of one pass that leaves its block at Executing: busy alone, no code.
// Beside `write_report`, as `write_timer` is beside `write_record`: 2,000 of 31,900 instructions less at 64 working blocks.
pub fn write_working_report(out: &mut [u8], used: u8, job: u64)
    requires { report_length ≤ length out.old }
    ensures { out.new ≡ working_report used job ++ drop report_length out.old }
{
    let report = Report {
        flags: BUSY_ALONE,
        used,
        passes: 1,
        step: Record::EXECUTING,
        code: 0,
        job,
    };
    report.write(out);
}
