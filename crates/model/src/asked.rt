ghost use Rattle.std.specs.Prelude.{◌≡◌, ◌<◌, length, slice_index_or};
ghost use Rattle.model.specs.Items.{no_item, no_times, Valid};
ghost use Rattle.model.specs.Laws.{Small, Handed};

use crate::item::Item;
use crate::times::Times;

/// An item with its times, as a rule is handed them.
#[derive(Clone, Copy)]
pub struct Timed<'a> {
    pub item: &'a Item,
    pub times: &'a Times,
    ghost valid: { Valid item.now },
    ghost small: { Small times.now },
}

/// What a rule is asked about: the item numbered `i`, among no more than 64 valid records, each with
/// a pair of times that do not pass 1,000,000.
#[derive(Clone, Copy)]
pub struct Asked<'a> {
    pub items: &'a [Item],
    // Beside the items: the law compares two sets of times.
    pub times: &'a [Times],
    pub i: usize,
    ghost handed: { Handed items.now times.now },
    ghost inside: { i < length items.now },
}

impl<'a> Asked<'a> {
    /// The item with its times.
    pub fn mine(self) -> Timed<'a>
        ensures item { result.item.now ≡ slice_index_or self.entry.items.now self.entry.i no_item }
        ensures times { result.times.now ≡ slice_index_or self.entry.times.now self.entry.i no_times }
    {
        Timed {
            item: &self.items[self.i],
            times: &self.times[self.i],
        }
    }
}
