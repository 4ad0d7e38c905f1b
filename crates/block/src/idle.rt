// Which blocks are idle.
ghost use Rattle.std.specs.Prelude.{◌≡◌};
ghost use Rattle.block.specs.Idle.{idle};

use crate::record::Record;

/// Dormant, and start false.
pub fn is_idle(start: bool, step: u8) -> bool
    ensures { result ≡ idle start step }
{
    (step == Record::DORMANT) & !start
}
