ghost use Rattle.std.specs.Prelude.{◌≡◌, ℕ, Bool, List};
ghost use Rattle.model.specs.declared.item.Item.{Item};
ghost use Rattle.model.specs.declared.times.Times.{Times};
ghost use Rattle.model.specs.Laws.{Law};

use crate::asked::Asked;
use crate::item::Item;

/// How items wait. Three ghost functions say what a rule means: `admits` looks at one record,
/// `wait` and `load` at all items and a set of times, for the item numbered `i`. The law is owed for
/// what may be `Asked` only.
pub trait Rule {
    ghost admits: { Self → Item → Bool };

    ghost wait: { Self → List Item → List Times → ℕ → ℕ };

    ghost load: { Self → List Item → List Times → ℕ → ℕ };

    fn admits(&self, item: &Item) -> bool
        ensures { result ≡ admits self.now item.now };

    /// In ticks. Everything above 1,000,000 is answered as 1,000,001.
    fn wait(&self, asked: Asked<'_>) -> u32
        ensures { result ≡ wait self.now asked.entry.items.now asked.entry.times.now asked.entry.i };

    /// The bytes in the item's output queue, its own among them; below 2^40.
    fn load(&self, asked: Asked<'_>) -> u64
        ensures { result ≡ load self.now asked.entry.items.now asked.entry.times.now asked.entry.i };

    ghost lawful: { (r : Self) → Law (wait r) (load r) };
}

/// A rule for the items of one class, whose number is a constant.
pub trait ClassRule: Rule {
    ghost CLASS: { ℕ };

    const CLASS: u8;
}
