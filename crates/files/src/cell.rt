ghost use Rattle.std.specs.Prelude.{◌≡◌, ◌≤◌, IfErr};
ghost use Rattle.records.specs.Faults.{number_of};
ghost use Rattle.files.specs.declared.cell.Classes.{Classes};
ghost use Rattle.files.specs.Cell.{no_stations, with_record, bank_of, cell_of, or_none};
ghost use Rattle.files.specs.Rows.{answer_of};

use crate::rows::{Intake, take_all};
use records::fault::{Fault, Refusal, SourceFile};
use records::record::{Figures, Record};
use rules::all::{AllClasses, all_classes};
use rules::can::Can;
use rules::gateway::Gateway;
use rules::processor::Processor;
use rules::stations::Stations;
use rules::table::Table;

/// The classes of a cell, each with its stations.
#[derive(Drop)]
struct Classes {
    table: Table,
    processor: Processor,
    can: Can,
    gateway: Gateway,
}

impl Classes {
    /// No station in any class.
    fn none() -> Classes
        ensures { result ≡ no_stations }
    {
        Classes {
            table: Table {
                stations: Stations::none(),
            },
            processor: Processor {
                stations: Stations::none(),
            },
            can: Can {
                stations: Stations::none(),
            },
            gateway: Gateway {
                stations: Stations::none(),
            },
        }
    }
}

impl From<Classes> for AllClasses {
    ghost from_gives = { λ classes bank. bank ≡ bank_of classes };

    fn from(classes: Classes) -> AllClasses {
        let Classes {
            table,
            processor,
            can,
            gateway,
        } = classes;
        all_classes(table, processor, can, gateway)
    }
}

impl Intake for Classes {
    ghost Fixed = { Unit {0} };

    ghost fixed = { λ _. tt };

    ghost View = { Classes };

    ghost view = { λ c. c };

    ghost takes = { λ _. with_record };

    fn take(&mut self, row: Record<'_>) -> Result<(), Refusal> {
        let Record::Station(new) = row else {
            return Err(Refusal::StrangeKind);
        };
        let added = match new.figures {
            Figures::Table => self.table.stations.add(new.station, ()),
            Figures::Processor => self.processor.stations.add(new.station, ()),
            Figures::Can(bus) => self.can.stations.add(new.station, bus),
            Figures::Gateway(slot) => self.gateway.stations.add(new.station, slot),
        };
        added.then_some(()).ok_or(Refusal::TakenStation)
    }
}

/// Makes the bank that the cell file tells of: all the classes, each with its stations there. The
/// bank of a refused file has no station at all.
pub fn make_bank(file: &[u8]) -> (AllClasses, Result<(), Fault>)
    ensures bank { result.0 ≡ or_none (cell_of file.now) }
    ensures answer { result.1 ≡ answer_of (cell_of file.now) }
    ensures own { IfErr result.1 (λ fault. number_of fault.refusal ≤ 7) }
{
    let mut classes = Classes::none();
    match take_all(&mut classes, SourceFile::Cell, file) {
        Ok(()) => (classes.into(), Ok(())),
        Err(fault) => (Classes::none().into(), Err(fault)),
    }
}
