// One block's step over the lent buffers, and every block's.
ghost use Rattle.std.specs.Prelude.{◌≡◌, ◌+◌, ◌*◌, ◌≤◌, ◌<◌, length};
ghost use Rattle.words.specs.Word.{Bytes};
ghost use Rattle.image.specs.Image.{most_slots};
ghost use Rattle.table.specs.Blocks.{blocks_of, config_at};
ghost use Rattle.block.specs.CallResult.{outcome_of};
ghost use Rattle.layout.specs.Buffer.{record_length, entry_length, report_length, event_length, put};
ghost use Rattle.layout.specs.RecordLayout.{record_offset, encode_timer};
ghost use Rattle.layout.specs.ReportLayout.{encode_report, working_report};
ghost use Rattle.layout.specs.EventLayout.{encode_events};
ghost use Rattle.engine.specs.Inputs.{flags_in, inputs_of};
ghost use Rattle.engine.specs.Serve.{entry_in, call_in, written, served, served_to};
ghost use Rattle.engine.specs.Callable.{Callable, Reached, HasRoom};
ghost use Rattle.engine.specs.ScanAccepted.{StateFits, GivenFits};
ghost use Rattle.engine.specs.Lent.{buffers_of, SameLoans};

use crate::idle::{idle_at, serve_idle};
use crate::inputs::input_of;
use crate::lent::Lent;
use crate::told::Told;
use block::call::CallResult;
use block::entry::Inputs;
use block::record::Record;
use layout::buffer::part_at;
use layout::entry::{ENTRY_BYTES, INPUTS_OFFSET};
use layout::event::EVENT_BYTES;
use layout::record::RECORD_BYTES;
use layout::report::REPORT_BYTES;
use table::table::Table;

// The inputs of the block at index i: its wires, else the bits of its entry.
fn inputs_at(table: &Table, i: usize, frame: &[u8], state: &[u8]) -> Inputs
    requires i_lt_count { i < length (blocks_of table.now) }
    requires reached { (entry_length * i < length frame.now) × Reached (config_at (blocks_of table.now) i) state.now }
    ensures { result ≡ inputs_of (config_at (blocks_of table.now) i) (flags_in state.now) (entry_in frame.now i).inputs }
{
    let bits = layout::entry::decode_inputs(frame[ENTRY_BYTES * i + INPUTS_OFFSET]);
    if table.is_unwired(i) {
        return bits;
    }
    // A wire at a time: both wires before both inputs took 260 instructions more at 64 blocks that work.
    Inputs {
        start: input_of(table.start_wire(i), state, bits.start),
        abort: input_of(table.abort_wire(i), state, bits.abort),
    }
}

// The call of the block at index i: its inputs, its record as it stands in the state, and its entry.
fn call_at(table: &Table, i: usize, frame: &[u8], state: &[u8]) -> CallResult
    requires i_lt_count { i < length (blocks_of table.now) }
    requires callable { Callable (config_at (blocks_of table.now) i).kind i frame.now state.now × Reached (config_at (blocks_of table.now) i) state.now }
    ensures { outcome_of result ≡ call_in (config_at (blocks_of table.now) i) i frame.now state.now }
{
    let kind = table.kind(i);
    let inputs = inputs_at(table, i, frame, state);
    let r = layout::record::decode_record(part_at::<RECORD_BYTES>(state, i));
    let e = layout::entry::decode_entry(part_at::<ENTRY_BYTES>(frame, i));
    block::call::call(kind, inputs, e, r)
}

// The block's own part of the report becomes the entry of a call.
fn report_call(report: &mut [u8], i: usize, a: CallResult)
    requires { report_length * i + report_length ≤ length report.old }
    ensures { report.new ≡ put (report_length * i) (encode_report (outcome_of a)) report.old }
{
    let own = REPORT_BYTES * i;
    layout::report::write_report(&mut report[own..], a);
}

// The events of a call are appended to the journal; the number of events now in it.
// The journal and a count, not `Lent`: the fields are lent apart, as in `serve`.
fn append_events(journal: &mut [u8], events: usize, position: u8, a: CallResult) -> usize
    requires { event_length * events + 2 * event_length ≤ length journal.old }
    ensures count { result ≡ events + length (outcome_of a).events }
    ensures journal { journal.new ≡ put (event_length * events) (encode_events position (outcome_of a).events) journal.old }
{
    let Some(first) = a.first else {
        return events;
    };
    let at = EVENT_BYTES * events;
    layout::event::write_event(&mut journal[at..], position, first);
    let last = a.second;
    let Some(second) = last else {
        return events + 1;
    };
    layout::event::write_event(&mut journal[at + EVENT_BYTES..], position, second);
    events + 2
}

// The block at index i goes on working, its call having made one pass: of its record the timer is written, and its report entry. It has no event.
// That a state holds bytes is said to a caller whose state is a field: the check knows it of a parameter alone.
fn write_working(i: usize, a: CallResult, state: &mut [u8], report: &mut [u8])
    requires { (record_length * i + record_length ≤ length state.old) × (report_length * i + report_length ≤ length report.old) }
    ensures state { state.new ≡ put (record_length * i + record_offset.last) (encode_timer a.next.timer) state.old }
    ensures report { report.new ≡ put (report_length * i) (working_report a.used a.next.job) report.old }
    ensures bytes { Bytes state.old }
{
    let timer = a.next.timer;
    layout::record::write_timer(&mut state[RECORD_BYTES * i..], timer);
    let place = REPORT_BYTES * i;
    layout::report::write_working_report(&mut report[place..], a.used, a.next.job);
}

impl<'a> Lent<'a> {
    // What a call of the block at index i leaves is written. That i has a position is asked: the table, which says it, is no part of this.
    fn write_call(&mut self, i: usize, a: CallResult)
        requires few { i < most_slots }
        requires own { record_length * i + record_length ≤ length self.old.state.now }
        requires has_room { HasRoom i self.old.events self.old.report.now self.old.journal.now }
        ensures written { buffers_of self.new ≡ written i (outcome_of a) (buffers_of self.old) }
        ensures same_loans { SameLoans self.old self.new }
    {
        let next = a.next;
        let events = self.events;
        layout::record::write_record(&mut self.state[RECORD_BYTES * i..], next);
        report_call(self.report, i, a);
        self.events = append_events(self.journal, events, (i + 1) as u8, a);
    }

    /// The block at index i is served. An idle block goes to `serve_idle`, which gets the state only to read; any other is called. Of one that goes on working
    /// only the timer is written, all else of its record being as it was.
    pub fn serve(&mut self, table: &Table, told: &Told, i: usize)
        requires i_lt_count { i < length (blocks_of table.now) }
        requires callable { Callable (config_at (blocks_of table.now) i).kind i told.now.frame self.old.state.now }
        requires reached { Reached (config_at (blocks_of table.now) i) self.old.state.now }
        requires has_room { HasRoom i self.old.events self.old.report.now self.old.journal.now }
        ensures served { buffers_of self.new ≡ served (config_at (blocks_of table.now) i) i told.now.frame (buffers_of self.old) }
        ensures same_loans { SameLoans self.old self.new }
    {
        let frame = told.frame();
        // Lent on its own: a read of one field beside a loan of another is not covered by the check.
        let state = &mut *self.state;
        if idle_at(table, i, frame, &state[..]) {
            let report = &mut self.report[REPORT_BYTES * i..];
            serve_idle(&state[..], report);
            return;
        }
        let a = call_at(table, i, frame, &state[..]);
        if (a.passes == 1) & (a.next.step == Record::EXECUTING) {
            write_working(i, a, state, self.report);
            return;
        }
        self.write_call(i, a);
    }

    /// Every block served once, in chain order.
    pub fn serve_all(&mut self, table: &Table, told: &Told)
        requires state_fits { StateFits (blocks_of table.now) self.old.state.now }
        requires given_fits { GivenFits (blocks_of table.now) told.now self.old.report.now self.old.journal.now }
        requires none { self.old.events ≡ 0 }
        ensures served { buffers_of self.new
            ≡ served_to (blocks_of table.now) told.now (length (blocks_of table.now)) (buffers_of self.old) }
        ensures same_loans { SameLoans self.old self.new }
    {
        let count = table.len();
        for i in 0..count {
            self.serve(table, told, i);
        }
    }
}
