ghost use Rattle.rules.specs.Can.{can_admits, can_wait, can_load, frames, queued};
ghost use Rattle.rules.specs.Parts.{frames_fair, loads_fair, queued_fair};
ghost use Rattle.rules.specs.Laws.{can_law};

use crate::interference::{Contribution, arrivals, load_of, wait_of};
use crate::stations::Stations;
use model::asked::{Asked, Timed};
use model::item::Item;
use model::rule::{ClassRule, Rule};

/// The figures of a CAN bus.
#[derive(Clone, Copy)]
pub struct Bus {
    pub ticks_per_bit: u32,
}

/// Class 3, CAN: fixed priorities, and a frame that has begun is sent to its end.
#[derive(Drop)]
pub struct Can {
    pub stations: Stations<Bus>,
}

/// A stronger message sends a frame at each arrival.
struct Frames;

impl Contribution for Frames {
    ghost part = { frames };

    ghost fair = { frames_fair };

    fn part(mine: Timed<'_>, other: Timed<'_>) -> u64 {
        arrivals(mine, other) * u64::from(other.item.duration)
    }
}

/// A stronger message of the same queue puts its bytes there at each arrival.
struct Queued;

impl Contribution for Queued {
    ghost part = { queued };

    ghost fair = { loads_fair _ queued_fair };

    fn part(mine: Timed<'_>, other: Timed<'_>) -> u64 {
        if mine.item.queue == other.item.queue {
            arrivals(mine, other) * u64::from(other.item.size)
        } else {
            0
        }
    }
}

impl Rule for Can {
    ghost admits = { λ r x. can_admits r.stations.figures x };

    ghost wait = { λ _. can_wait };

    ghost load = { λ _. can_load };

    ghost lawful = { λ r. can_law };

    fn admits(&self, item: &Item) -> bool {
        let bits = 55 + 10 * u64::from(item.size);
        item.class == Self::CLASS
            && item.mark == 0
            && item.held == 0
            && item.size <= 8
            && self.stations.get(item.station).is_some_and(|bus| u64::from(item.duration)
                == bits * u64::from(bus.ticks_per_bit))
    }

    fn wait(&self, asked: Asked<'_>) -> u32 {
        wait_of::<Frames, _>(asked, &|begun: &Item| begun.duration)
    }

    fn load(&self, asked: Asked<'_>) -> u64 {
        load_of::<Queued>(asked)
    }
}

impl ClassRule for Can {
    ghost CLASS = { 3 };

    const CLASS: u8 = 3;
}
