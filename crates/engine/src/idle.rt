// One idle block's step, which gets the state only to read: the record stays in its place.
ghost use Rattle.std.specs.Prelude.{◌≡◌, ◌*◌, ◌≤◌, ◌<◌, length};
ghost use Rattle.table.specs.Blocks.{blocks_of, config_at};
ghost use Rattle.layout.specs.Buffer.{record_length, entry_length, report_length};
ghost use Rattle.engine.specs.Callable.{Reached};
ghost use Rattle.engine.specs.Idle.{idle_in, idle_report, IdleStep};

use crate::inputs::input_of;
use block::call::CallResult;
use layout::entry::{ENTRY_BYTES, INPUTS_OFFSET};
use layout::record::{RECORD_BYTES, STEP_OFFSET};
use table::table::Table;

// Whether the block at index i is idle. Of its slot only the start wire is read.
pub fn idle_at(table: &Table, i: usize, frame: &[u8], state: &[u8]) -> bool
    requires i_lt_count { i < length (blocks_of table.now) }
    requires i_in_bounds { (entry_length * i < length frame.now) × (record_length * i < length state.now) }
    requires reached { Reached (config_at (blocks_of table.now) i) state.now }
    ensures { result ≡ idle_in (config_at (blocks_of table.now) i) i frame.now state.now }
{
    let wire = table.start_wire(i);
    let bits = layout::entry::decode_inputs(frame[ENTRY_BYTES * i + INPUTS_OFFSET]);
    let start = input_of(wire, state, bits.start);
    block::idle::is_idle(start, state[RECORD_BYTES * i + STEP_OFFSET])
}

// An idle block is served: of `lent`, the report from its place on, its entry is written, and nothing else anywhere. Nothing of the state is read: a record that
// is sound and Dormant is all zero.
pub fn serve_idle(state: &[u8], lent: &mut [u8])
    requires { report_length ≤ length lent.old }
    ensures report { lent.new ≡ idle_report lent.old }
    ensures step { IdleStep state.now lent.old lent.new }
{
    layout::report::write_report(lent, CallResult::idle());
}
