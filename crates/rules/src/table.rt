ghost use Rattle.rules.specs.Table.{table_admits};
ghost use Rattle.bank.specs.Laws.{nothing_law};

use crate::stations::Stations;
use model::asked::Asked;
use model::item::Item;
use model::rule::{ClassRule, Rule};

/// Class 1, table: the start is fixed by a table, so there is nothing to wait for and no queue.
#[derive(Drop)]
pub struct Table {
    pub stations: Stations<()>,
}

impl Rule for Table {
    ghost admits = { λ r x. table_admits r.stations.figures x };

    ghost wait = { λ _ _ _ _. 0 };

    ghost load = { λ _ _ _ _. 0 };

    ghost lawful = { λ _. nothing_law };

    fn admits(&self, item: &Item) -> bool {
        item.class == Self::CLASS
            && self.stations.get(item.station).is_some()
            && item.mark == 1
            && item.size == 0
            && item.held == 0
            && item.queue == 0
    }

    fn wait(&self, _asked: Asked<'_>) -> u32 {
        0
    }

    fn load(&self, _asked: Asked<'_>) -> u64 {
        0
    }
}

impl ClassRule for Table {
    ghost CLASS = { 1 };

    const CLASS: u8 = 1;
}
