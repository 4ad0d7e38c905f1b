// Find a tag, and show its slot: checks 50 and 51.
ghost use Rattle.std.specs.Prelude.{◌≡◌};
ghost use Rattle.refusal.specs.Refusal.{answer_of};
ghost use Rattle.table.specs.Lookup.{find_of, show_of};

use crate::chain::Chain;
use crate::check::check_into;
use crate::table::Table;
use refusal::Answer;

/// The position of a tag, from 1, or the first check that fails, of 1 to 11, 50 and 51.
#[tactic(auto, unfolding(crate::specs::Lookup::find_of))]
pub fn find(image: &[u8], tag: &[u8]) -> Answer
    ensures answer { result ≡ find_of image.now tag.now }
    ensures numbers { answer_of result ≡ answer_of (find_of image.now tag.now) }
{
    let mut chain = Chain::new();
    check_into(image, &mut chain)?;
    Table::new(image, &chain).find(tag)
}

/// The sixteen bytes of the slot that find finds, as a part of the image; an empty part where find refuses.
#[tactic(auto, unfolding(crate::specs::Lookup::find_of, crate::specs::Lookup::show_of))]
pub fn show<'a, 'b>(image: &'a [u8], tag: &'b [u8]) -> &'a [u8]
    ensures { result.now ≡ show_of image.now tag.now }
{
    let mut chain = Chain::new();
    let Ok(_) = check_into(image, &mut chain) else {
        return &image[0..0];
    };
    let table = Table::new(image, &chain);
    let Ok(position) = table.find(tag) else {
        return &image[0..0];
    };
    table.slot(position - 1)
}
