//! What stands in the two files, a line for each record.
use model::rule::Rule;
use records::fault::SourceFile;
use records::record::Record;
use records::rows::Rows;
use std::io;

/// How many records of each kind were listed.
#[derive(Clone, Copy, Default)]
pub struct Counts {
    pub stations: usize,
    pub items: usize,
    pub arcs: usize,
}

/// Prints one record, an item with its number and whether the bank admits it.
fn print_record<R: Rule>(
    rt: &HostRuntime,
    bank: &R,
    counts: &mut Counts,
    record: Record<'_>,
) -> io::Result<()> {
    // Counted by hand: items and arcs stand in any order, and each is printed where it stands.
    match record {
        Record::Station(station) => {
            counts.stations = counts.stations.saturating_add(1);
            println!(rt; "{station}")
        }
        Record::Item(item) => {
            let number = counts.items;
            counts.items = number.saturating_add(1);
            let answer = if bank.admits(&item.item) {
                "admitted"
            } else {
                "not admitted"
            };
            println!(rt; "item {number} {item} {answer}")
        }
        Record::Arc(arc) => {
            counts.arcs = counts.arcs.saturating_add(1);
            println!(rt; "arc {} {}", arc.from, arc.to)
        }
    }
}

/// Prints each record of a file, up to its end or its first fault.
pub fn list<R: Rule>(
    rt: &HostRuntime,
    bank: &R,
    counts: &mut Counts,
    file: SourceFile,
    bytes: &[u8],
) -> io::Result<()> {
    for row in Rows::new(file, bytes) {
        let Ok(row) = row else {
            break;
        };
        print_record(rt, bank, counts, row.record)?;
    }
    Ok(())
}
