// Check 11: the slots off the chain.
ghost use Rattle.std.specs.Prelude.{◌≡◌, length};
ghost use Rattle.image.specs.Image.{slot_bytes, HasSlot};
ghost use Rattle.table.specs.Header.{HeaderOk};
ghost use Rattle.table.specs.Chain.{chain_of, HoldsPositions};
ghost use Rattle.words.specs.Word.{all_zero};
ghost use Rattle.table.specs.Spare.{spare_ok, spares_check};

use crate::chain::{Chain, on_chain};
use image::{SLOT_COUNT_OFFSET, TAG_OFFSET, slot_start};
use refusal::{Check, Checked, Refusal};
use words::read_at;

/// Whether all sixteen bytes of a slot are zero: the eight before the tag, and the tag's.
// By words: sixteen zero bytes are two numbers that are zero (docs/PERFORMANCE.md, What was done).
#[tactic(auto, using(crate::proofs::SpareLaws::zero_sixteen))]
fn slot_zero(image: &[u8], slot: u8) -> bool
    requires { HasSlot image.now slot }
    ensures { result ≡ all_zero (slot_bytes image.now slot) }
{
    let start = slot_start(slot);
    (read_at::<u64>(image, start) == 0) & (read_at::<u64>(image, start + TAG_OFFSET) == 0)
}

/// A slot on the chain, or sixteen zeros.
fn spare_ok(image: &[u8], chain: &Chain, slot: u8) -> bool
    requires has_slot { HasSlot image.now slot }
    requires places { HoldsPositions (chain_of image.now) chain.now.positions }
    ensures { result ≡ spare_ok image.now (chain_of image.now) slot }
{
    if on_chain(chain, slot) {
        return true;
    }
    slot_zero(image, slot)
}

/// Check 11: the slots from the lowest on; a chain of as many blocks as there are slots leaves none.
#[tactic(auto, using(refusal::proofs::Rows::refused_at, refusal::proofs::Rows::refused_next), unfolding(crate::specs::Spare::spares_check))]
pub fn check_spares(image: &[u8], chain: &Chain) -> Checked<()>
    requires header_ok { HeaderOk image.now }
    requires places { HoldsPositions (chain_of image.now) chain.now.positions }
    requires counted { length (chain_of image.now) ≡ chain.now.count }
    ensures { result ≡ spares_check image.now }
{
    let n = image[SLOT_COUNT_OFFSET];
    let none_spare = chain.count == n as usize;
    if none_spare {
        return Ok(());
    }
    for i in 0..n {
        let slot = i + 1;
        if !spare_ok(image, chain, slot) {
            return Err(Refusal::at_slot(Check::SpareSlot, slot));
        }
    }
    Ok(())
}
