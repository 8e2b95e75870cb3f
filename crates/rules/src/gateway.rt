ghost use Rattle.rules.specs.Gateway.{gateway_admits, gateway_wait, gateway_load, bytes};
ghost use Rattle.rules.specs.Parts.{loads_fair, bytes_fair};
ghost use Rattle.rules.specs.Laws.{gateway_law};

use crate::interference::{Contribution, arrivals, cap, ceiling, load_of};
use crate::stations::Stations;
use model::asked::{Asked, Timed};
use model::item::Item;
use model::rule::{ClassRule, Rule};

/// The figures of a gateway: its slot in the round of the time-triggered network.
#[derive(Clone, Copy)]
pub struct Slot {
    /// How often the slot comes.
    pub round: u32,
    /// How long it is.
    pub length: u32,
    /// How many bytes it carries.
    pub capacity: u16,
}

/// Class 4, gateway: messages queue by priority for one slot of the round, and may be split
/// between two frames.
#[derive(Drop)]
pub struct Gateway {
    pub stations: Stations<Slot>,
}

/// A stronger message puts its bytes before mine at each arrival.
struct Ahead;

impl Contribution for Ahead {
    ghost part = { bytes };

    ghost fair = { loads_fair _ bytes_fair };

    fn part(mine: Timed<'_>, other: Timed<'_>) -> u64 {
        arrivals(mine, other) * u64::from(other.item.size)
    }
}

impl Rule for Gateway {
    ghost admits = { λ r x. gateway_admits r.stations.figures x };

    ghost wait = { λ r. gateway_wait r.stations.figures };

    ghost load = { λ _. gateway_load };

    ghost lawful = { λ r. gateway_law r.stations.figures };

    fn admits(&self, item: &Item) -> bool {
        item.class == Self::CLASS
            && item.mark == 0
            && item.held == 0
            && item.queue == 0
            && 1 <= item.size
            && self.stations.get(item.station).is_some_and(|slot| u16::from(item.size)
                <= slot.capacity
                && item.duration == slot.length)
    }

    fn wait(&self, asked: Asked<'_>) -> u32 {
        let Some(slot) = self.stations.get(asked.mine().item.station) else {
            return 0;
        };
        let round = u64::from(slot.round);
        let slots = ceiling(load_of::<Ahead>(asked), u32::from(slot.capacity));
        cap(round.saturating_add(slots.saturating_mul(round)))
    }

    fn load(&self, asked: Asked<'_>) -> u64 {
        load_of::<Ahead>(asked)
    }
}

impl ClassRule for Gateway {
    ghost CLASS = { 4 };

    const CLASS: u8 = 4;
}
