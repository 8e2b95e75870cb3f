ghost use Rattle.rules.specs.Processor.{processor_admits, processor_wait, work as work_of};
ghost use Rattle.rules.specs.Parts.{work_fair};
ghost use Rattle.rules.specs.Laws.{processor_law};

use crate::interference::{Contribution, ceiling, wait_of};
use crate::stations::Stations;
use model::asked::{Asked, Timed};
use model::item::Item;
use model::rule::{ClassRule, Rule};

/// Class 2, processor: fixed priorities with preemption.
#[derive(Drop)]
pub struct Processor {
    pub stations: Stations<()>,
}

/// A stronger process runs once in each of its periods that begins before mine has ended.
struct Work;

impl Contribution for Work {
    ghost part = { work_of };

    ghost fair = { work_fair };

    fn part(mine: Timed<'_>, other: Timed<'_>) -> u64 {
        let jitter = other.times.jitter(other.item);
        let window = u64::from(mine.times.wait) + u64::from(mine.item.duration) + u64::from(jitter);
        ceiling(window, other.item.period) * u64::from(other.item.duration)
    }
}

impl Rule for Processor {
    ghost admits = { λ r x. processor_admits r.stations.figures x };

    ghost wait = { λ _. processor_wait };

    ghost load = { λ _ _ _ _. 0 };

    ghost lawful = { λ r. processor_law };

    fn admits(&self, item: &Item) -> bool {
        item.class == Self::CLASS
            && self.stations.get(item.station).is_some()
            && item.mark == 0
            && item.size == 0
            && item.queue == 0
    }

    fn wait(&self, asked: Asked<'_>) -> u32 {
        wait_of::<Work, _>(asked, &|begun: &Item| begun.held)
    }

    fn load(&self, _asked: Asked<'_>) -> u64 {
        0
    }
}

impl ClassRule for Processor {
    ghost CLASS = { 2 };

    const CLASS: u8 = 2;
}
