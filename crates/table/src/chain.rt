// The chain, walked from the head to the zero that ends it: checks 5 and 6.
ghost use Rattle.std.specs.Prelude.{◌≡◌, IfOk, not, eqb, length, get_or, ◌+◌};
ghost use Rattle.image.specs.Image.{most_slots};
ghost use Rattle.table.specs.Header.{HeaderOk};
ghost use Rattle.table.specs.Walk.{walked};
ghost use Rattle.table.specs.Chain.{chain_of, chain_verdict, Holds, IsUnmet};

use image::{MOST_SLOTS, SLOT_COUNT_OFFSET};
use refusal::{Check, Checked, Place, Refusal};
use walker::slot_after;

/// What a walk leaves, lent to it by an entry point: the slots met, the first `count`, in order; and the position of each slot, 0 off the chain.
// Arrays and a count: there is no heap. 0 and no Option off the chain: it is the byte that a tidy table has there.
#[derive(Drop)]
pub struct Chain {
    pub slots: [u8; MOST_SLOTS],
    pub positions: [u8; MOST_SLOTS + 1],
    pub count: usize,
}

impl Chain {
    /// No slot is met.
    #[tactic(auto, using(crate::proofs::ChainLaws::no_slots))]
    pub fn new() -> Self
        ensures { IsUnmet result }
    {
        Chain {
            slots: [0; MOST_SLOTS],
            positions: [0; MOST_SLOTS + 1],
            count: 0,
        }
    }
}

/// Checks 5 and 6: the slots of the chain, in order, and their positions.
pub fn walk(image: &[u8], chain: &mut Chain) -> Checked<()>
    requires header_ok { HeaderOk image.now }
    requires unmet { IsUnmet chain.old }
    ensures answer { result ≡ chain_verdict (walked image.now) }
    ensures holds { IfOk result (λ _. Holds (chain_of image.now) chain.new) }
{
    let mut count: usize = 0;
    let mut from = Place::Header;
    let n = image[SLOT_COUNT_OFFSET];
    let mut at = slot_after(image, 0);
    // A `while`: the rules walk the chain to the zero that ends it, so that no length is known before (docs/RULES.md, Table image).
    while at != 0 {
        if n < at {
            return Err(Refusal {
                check: Check::LinkAbove,
                place: from,
            });
        }
        let i = at as usize;
        if chain.positions[i] != 0 {
            return Err(Refusal {
                check: Check::LinkAgain,
                place: from,
            });
        }
        chain.slots[count] = at;
        count += 1;
        chain.positions[i] = count as u8;
        from = Place::Slot(at);
        at = slot_after(image, at);
    }
    chain.count = count;
    Ok(())
}

/// Whether a slot is on the chain.
pub fn on_chain(chain: &Chain, slot: u8) -> bool
    ensures { result ≡ not (eqb (get_or chain.now.positions slot 0) 0) }
{
    chain
        .positions
        .get(slot as usize)
        .is_some_and(|&position| position != 0)
}
