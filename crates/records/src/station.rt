ghost use Rattle.std.specs.Prelude.{◌≡◌};
ghost use Rattle.records.specs.Stations.{figures_of, station_of};

use crate::fault::Refusal;
use crate::record::{Figures, StationRecord};
use rules::can::Bus;
use rules::gateway::Slot;

/// The figures of a station of this class, if the class is one and they are in its range.
fn figures_of(class: u8, first: u32, second: u32, third: u16) -> Option<Figures>
    ensures { result ≡ figures_of class first second third }
{
    // Kept as numbers: this match is where a class's number becomes the class.
    match (class, first, second, third) {
        (1, 0, 0, 0) => Some(Figures::Table),
        (2, 0, 0, 0) => Some(Figures::Processor),
        (3, 1..=100, 0, 0) => Some(Figures::Can(Bus {
            ticks_per_bit: first,
        })),
        (4, 1..=100_000, _, 1..=240) if 1 <= second && second <= first => {
            Some(Figures::Gateway(Slot {
                round: first,
                length: second,
                capacity: third,
            }))
        }
        _ => None,
    }
}

/// The station that a body of 12 bytes tells of.
pub(crate) fn read_station(body: &[u8]) -> Result<StationRecord, Refusal>
    ensures { result ≡ station_of body.now }
{
    let [class, station, f0, f1, f2, f3, s0, s1, s2, s3, t0, t1] = body else {
        // Made here: there is no error to hand on.
        return Err(Refusal::WrongLength);
    };
    let first = u32::from_le_bytes([*f0, *f1, *f2, *f3]);
    let second = u32::from_le_bytes([*s0, *s1, *s2, *s3]);
    let third = u16::from_le_bytes([*t0, *t1]);
    match figures_of(*class, first, second, third) {
        Some(figures) if *station <= 7 => Ok(StationRecord {
            station: *station,
            figures,
        }),
        _ => Err(Refusal::OutOfRange),
    }
}
