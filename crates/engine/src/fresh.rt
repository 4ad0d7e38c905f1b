// A fresh state, all zero.
ghost use Rattle.std.specs.Prelude.{◌≡◌};
ghost use Rattle.refusal.specs.Refusal.{answer_of};
ghost use Rattle.engine.specs.Fresh.{fresh_of};

use layout::record::RECORD_BYTES;
use refusal::{Answer, Check, Refusal};
use table::chain::Chain;
use table::check::check_into;
use table::table::Table;

/// All records of the lent state become fresh.
#[tactic(auto, unfolding(crate::specs::Fresh::fresh_of))]
pub fn fresh(image: &[u8], state: &mut [u8]) -> Answer
    ensures answer { result ≡ (fresh_of image.now state.old).answer }
    ensures numbers { answer_of result ≡ answer_of (fresh_of image.now state.old).answer }
    ensures state { state.new ≡ (fresh_of image.now state.old).state }
{
    let mut chain = Chain::new();
    let count = check_into(image, &mut chain)?;
    let table = Table::new(image, &chain);
    if state.len() != RECORD_BYTES * table.len() {
        return Err(Refusal::header(Check::StateLength));
    }
    state.fill(0);
    Ok(count)
}
