// Checks 1 to 4: the header.
ghost use Rattle.std.specs.Prelude.{◌≡◌, OnOk};
ghost use Rattle.table.specs.Header.{header_check, HeaderOk};

use image::{
    HEADER_LENGTH, HEADER_ZERO_OFFSET, MOST_SLOTS, SLOT_COUNT_OFFSET, SLOT_LENGTH, VERSION_OFFSET,
};
use refusal::{Check, Checked, Refusal};

/// Checks 1 to 4, which look at the header and at the length of the image alone.
#[tactic(auto, unfolding(crate::specs::Header::header_check))]
pub fn check_header(image: &[u8]) -> Checked<()>
    ensures answer { result ≡ header_check image.now }
    ensures passed { OnOk result (HeaderOk image.now) }
{
    if image.len() < HEADER_LENGTH {
        return Err(Refusal::header(Check::ShortHeader));
    }
    if image[VERSION_OFFSET] != 1 || image[HEADER_ZERO_OFFSET] != 0 {
        return Err(Refusal::header(Check::Version));
    }
    let n = image[SLOT_COUNT_OFFSET] as usize;
    if !(1..=MOST_SLOTS).contains(&n) {
        return Err(Refusal::header(Check::SlotCount));
    }
    if image.len() != HEADER_LENGTH + SLOT_LENGTH * n {
        return Err(Refusal::header(Check::ImageLength));
    }
    Ok(())
}
