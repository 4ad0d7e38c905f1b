// Tidy a table: check 60.
ghost use Rattle.std.specs.Prelude.{◌≡◌};
ghost use Rattle.refusal.specs.Refusal.{answer_of};
ghost use Rattle.tidy.specs.Tidy.{tidy_into};

use crate::encode::{encode_table, encoded_length};
use refusal::{Answer, Check, Refusal};
use table::chain::Chain;
use table::check::check_into;
use table::table::Table;

/// Writes a table anew, tidy (docs/RULES.md, "Tidying"), into the lent buffer, which has just its bytes: 4 + 16 × max(1, blocks). The number of blocks, or a refusal, 1 to 11
/// or 60, which leaves the buffer untouched.
#[tactic(auto, using(crate::proofs::TidyLaws::tidied, crate::proofs::TidyLaws::length_refused), unfolding(crate::specs::Tidy::tidy_into))]
pub fn tidy(image: &[u8], out: &mut [u8]) -> Answer
    ensures answer { result ≡ (tidy_into image.now out.old).answer }
    ensures numbers { answer_of result ≡ answer_of (tidy_into image.now out.old).answer }
    ensures out { out.new ≡ (tidy_into image.now out.old).out }
{
    let mut chain = Chain::new();
    check_into(image, &mut chain)?;
    let table = Table::new(image, &chain);
    let length = encoded_length(table.len());
    let wrong_length = out.len() != length;
    if wrong_length {
        return Err(Refusal::header(Check::OutputLength));
    }
    encode_table(out, &table);
    Ok(table.len())
}
