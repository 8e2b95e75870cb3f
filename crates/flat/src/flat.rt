ghost use Rattle.flat.specs.Flatly.{flat_admits, flat_wait, flat_load, flat_law};

use model::asked::Asked;
use model::item::Item;
use model::rule::Rule;

/// Every item waits the same stretch, and queues its own bytes only. A record of 255 bytes is not
/// admitted.
#[derive(Clone, Copy)]
pub struct Flat {
    pub stretch: u32,
}

impl Rule for Flat {
    ghost admits = { λ _. flat_admits };

    ghost wait = { λ r. flat_wait r.stretch };

    ghost load = { λ _. flat_load };

    ghost lawful = { λ r. flat_law r.stretch };

    fn admits(&self, item: &Item) -> bool {
        item.size != 255
    }

    fn wait(&self, _asked: Asked<'_>) -> u32 {
        self.stretch.min(1_000_001)
    }

    fn load(&self, asked: Asked<'_>) -> u64 {
        u64::from(asked.mine().item.size)
    }
}
