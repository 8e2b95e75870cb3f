ghost use Rattle.std.specs.Prelude.{◌≡◌};
ghost use Rattle.figures.specs.Machine.{only_first, cell_bank};

use rules::all::{AllClasses, all_classes};
use rules::can::{Bus, Can};
use rules::gateway::{Gateway, Slot};
use rules::processor::Processor;
use rules::stations::Stations;
use rules::table::Table;

/// Station 0 alone.
fn only<T: Copy>(figures: T) -> Stations<T>
    ensures { result.figures ≡ only_first figures }
{
    let mut stations = Stations::none();
    let _ = stations.add(0, figures);
    stations
}

/// The bank of the machine: station 0 of each class; a bus of 2 ticks per bit, and a gateway whose
/// slot of 250 ticks carries 8 bytes once in 1000.
pub fn cell() -> AllClasses
    ensures { result ≡ cell_bank }
{
    all_classes(
        Table { stations: only(()) },
        Processor { stations: only(()) },
        Can {
            stations: only(Bus { ticks_per_bit: 2 }),
        },
        Gateway {
            stations: only(Slot {
                round: 1000,
                length: 250,
                capacity: 8,
            }),
        },
    )
}
