// Wires and frame to the inputs of a call.
ghost use Rattle.std.specs.Prelude.{◌≡◌, ◌*◌, ◌≤◌, length};
ghost use Rattle.layout.specs.Buffer.{record_length};
ghost use Rattle.engine.specs.Inputs.{flags_in, flag_of, input_of, input_of_numbers};
ghost use Rattle.engine.specs.Callable.{Reaches};

use block::record::Flags;
use layout::record::{FLAGS_OFFSET, RECORD_BYTES};
use table::blocks::{Flag, Wire};

// The flag of that name.
fn flag_of(flag: Flag, flags: Flags) -> bool
    ensures { result ≡ flag_of flag flags }
{
    match flag {
        Flag::Busy => flags.busy,
        Flag::Done => flags.done,
        Flag::Error => flags.error,
        Flag::Aborted => flags.aborted,
    }
}

// One input: the frame's bit, or a flag as it stands in the state.
// That the wire reaches into the state is asked: of the length of a state check 20 says it, and no type.
pub fn input_of(wire: Option<Wire>, state: &[u8], bit: bool) -> bool
    requires { Reaches wire state.now }
    ensures { result ≡ input_of wire (flags_in state.now) bit }
{
    let Some(w) = wire else {
        return bit;
    };
    let i = w.position as usize - 1;
    let flags = layout::record::decode_flags(state[RECORD_BYTES * i + FLAGS_OFFSET]);
    let flag = flag_of(w.flag, flags);
    if w.inverted {
        return !flag;
    }
    flag
}

/// One input of a wire by its numbers: the frame's bit at position 0, else a flag of that number, 0 busy, 1 done, 2 error, any other aborted.
pub fn input_of_numbers(position: u8, flag: u8, inverted: bool, state: &[u8], bit: bool) -> bool
    requires { record_length * position ≤ length state.now }
    ensures { result ≡ input_of_numbers position flag inverted (flags_in state.now) bit }
{
    let wire = Wire::of_numbers(position, flag, inverted);
    input_of(wire, state, bit)
}
