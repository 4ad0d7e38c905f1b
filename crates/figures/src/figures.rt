// The six figures of a line.
ghost use Rattle.std.specs.Prelude.{◌≡◌, ◌≤◌};
ghost use Rattle.image.specs.Image.{most_slots};
ghost use Rattle.figures.specs.Tally.{counts_of, figures_in, RowFits};
ghost use Rattle.figures.specs.Figures.{plus, AtMost};

use crate::tally::Tally;
use block::event::Event;
use std::ops::Add;

/// Counts of a block's events, or sums of such counts.
#[derive(Clone, Copy, Debug, Default, PartialEq, Eq)]
pub struct Figures {
    pub starts: u32,
    pub done: u32,
    pub failed: u32,
    pub aborted: u32,
    pub withdrawn: u32,
    pub left_open: u32,
}

/// Column by column, of counts of at most 2,147,483,647 each.
impl Add for Figures {
    type Output = Figures;

    ghost can_add = { λ f g. AtMost 2147483647 f × AtMost 2147483647 g };

    ghost add_gives = { λ f g sum. sum ≡ plus f g };

    fn add(self, g: Figures) -> Figures {
        Figures {
            starts: self.starts + g.starts,
            done: self.done + g.done,
            failed: self.failed + g.failed,
            aborted: self.aborted + g.aborted,
            withdrawn: self.withdrawn + g.withdrawn,
            left_open: self.left_open + g.left_open,
        }
    }
}

/// The figures of the block at a position.
#[tactic(auto, unfolding(crate::specs::Figures::figures_by))]
pub fn figures_at(tally: &Tally, position: u8) -> Figures
    requires position_le_most_slots { position ≤ most_slots }
    requires row_fits { RowFits (counts_of tally.now) position }
    ensures { result ≡ figures_in (counts_of tally.now) position }
{
    let starts = tally.count(position, Event::START);
    let done = tally.count(position, Event::DONE);
    let failed = tally.count(position, Event::FAILED);
    let aborted = tally.count(position, Event::ABORTED);
    let withdrawn = tally.count(position, Event::WITHDRAWN);
    let left_open = starts - (done + failed + aborted + withdrawn);
    Figures {
        starts,
        done,
        failed,
        aborted,
        withdrawn,
        left_open,
    }
}
