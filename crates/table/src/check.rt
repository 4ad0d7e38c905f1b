// The table checks, 1 to 11.
ghost use Rattle.std.specs.Prelude.{◌≡◌, OnOk};
ghost use Rattle.refusal.specs.Refusal.{answer_of};
ghost use Rattle.table.specs.Chain.{IsUnmet};
ghost use Rattle.table.specs.Check.{check_of, IsAccepted};

use crate::chain::{Chain, walk};
use crate::header::check_header;
use crate::record::check_records;
use crate::spare::check_spares;
use refusal::Answer;

/// Checks 1 to 11: the number of blocks. The chain of an accepted table is left in `chain`, for the layers above.
#[tactic(auto, unfolding(crate::specs::Check::verdict_of, crate::specs::Check::check_of))]
pub fn check_into(image: &[u8], chain: &mut Chain) -> Answer
    requires { IsUnmet chain.old }
    ensures answer { result ≡ check_of image.now }
    ensures accepted { OnOk result (IsAccepted image.now chain.new) }
{
    check_header(image)?;
    walk(image, chain)?;
    check_records(image, chain)?;
    check_spares(image, chain)?;
    Ok(chain.count)
}

/// The number of blocks of an accepted table, 0 to 64, or the first check that fails, of 1 to 11.
pub fn check(image: &[u8]) -> Answer
    ensures answer { result ≡ check_of image.now }
    ensures numbers { answer_of result ≡ answer_of (check_of image.now) }
{
    let mut chain = Chain::new();
    check_into(image, &mut chain)
}
