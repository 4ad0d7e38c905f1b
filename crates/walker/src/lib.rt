#![tactic(auto)]

// The chain's walker: the image and the current slot. Slot 0 stands for the header, which names the head.
// `next_slot` does the work; `next` takes the walker apart for it, and `slot_after` makes one.
ghost use Rattle.std.specs.Prelude.{◌≡◌};
ghost use Rattle.image.specs.Image.{Reaches};
ghost use Rattle.walker.specs.Next.{next_slot};

use image::{HEAD_OFFSET, NEXT_OFFSET, slot_byte};

/// An image, and a slot of its chain, from 1; slot 0 stands for the header.
// Image and current slot, 0 for the header, and two thin functions: the form is fixed for the project.
#[derive(Clone, Copy, Debug, PartialEq, Eq)]
pub struct Walker<'a> {
    pub image: &'a [u8],
    pub slot: u8,
}

/// The slot after a slot, 0 at the end of the chain: the work.
pub fn next_slot(image: &[u8], slot: u8) -> u8
    requires { Reaches image.now slot }
    ensures { result ≡ next_slot image.now slot }
{
    if slot == 0 {
        return image[HEAD_OFFSET];
    }
    slot_byte(image, slot, NEXT_OFFSET)
}

/// The slot after the walker's: the walker is taken apart.
pub fn next<'a>(walker: Walker<'a>) -> u8
    requires { Reaches walker.image.now walker.slot }
    ensures { result ≡ next_slot walker.entry.image.now walker.entry.slot }
{
    next_slot(walker.image, walker.slot)
}

/// The slot after slot `at`: a walker is made. A caller sees none.
pub fn slot_after<'a>(image: &'a [u8], at: u8) -> u8
    requires { Reaches image.now at }
    ensures { result ≡ next_slot image.now at }
{
    next(Walker { image, slot: at })
}
