ghost use Rattle.std.specs.Prelude.{Some};
ghost use Rattle.records.specs.Texts.{figures_text, station_text, item_text};

use crate::record::{Figures, ItemRecord, StationRecord};
use std::fmt;

impl fmt::Display for Figures {
    ghost output = { λ f. Some (figures_text f) };

    fn fmt<W: fmt::Write>(&self, f: &mut fmt::Formatter<W>) -> fmt::Result {
        match self {
            Figures::Table => f.write_str("table"),
            Figures::Processor => f.write_str("processor"),
            Figures::Can(bus) => write!(f, "can ticks {}", bus.ticks_per_bit),
            Figures::Gateway(slot) => {
                let round = slot.round;
                let length = slot.length;
                let capacity = slot.capacity;
                write!(f, "gateway round {round} slot {length} capacity {capacity}")
            }
        }
    }
}

impl fmt::Display for StationRecord {
    ghost output = { λ s. Some (station_text s) };

    fn fmt<W: fmt::Write>(&self, f: &mut fmt::Formatter<W>) -> fmt::Result {
        write!(f, "station {} {}", self.station, self.figures)
    }
}

impl<'a> fmt::Display for ItemRecord<'a> {
    ghost output = { λ i. Some (item_text i) };

    fn fmt<W: fmt::Write>(&self, f: &mut fmt::Formatter<W>) -> fmt::Result {
        let item = self.item;
        write!(
            f,
            "{} class {} station {}",
            self.name, item.class, item.station
        )?;
        write!(
            f,
            " mark {} priority {} queue {}",
            item.mark, item.priority, item.queue
        )?;
        write!(
            f,
            " size {} period {} duration {}",
            item.size, item.period, item.duration
        )?;
        write!(
            f,
            " held {} offset {} deadline {}",
            item.held, item.offset, item.deadline
        )
    }
}
