//! The reckoner's own reading of the two files: first where the records lie, then what they say.
use crate::machine::{Activity, Kind, Link, Machine, Name, Record, Station, spelled};
use crate::question::{Question, ask};
use crate::questions::ask_record;
use crate::source::{Files, Source};
use crate::verdict::Fault;
use std::alloc::{AllocError, Global};

const MOST_BYTES: usize = 16384;

/// A record as it lies in a file.
#[derive(Clone, Copy)]
struct Row<'a> {
    place: usize,
    kind: Result<Kind, Question>,
    body: &'a [u8],
}

/// The rows of a file, and the place of one that is not whole.
#[derive(Drop)]
struct Rows<'a> {
    rows: Vec<Row<'a>>,
    torn: Option<usize>,
}

/// Why a file was not read to its end.
#[derive(Drop)]
pub enum Stop {
    Faulty(Fault),
    OutOfMemory(AllocError),
}

impl From<Fault> for Stop {
    fn from(fault: Fault) -> Stop {
        Stop::Faulty(fault)
    }
}

impl From<AllocError> for Stop {
    fn from(error: AllocError) -> Stop {
        Stop::OutOfMemory(error)
    }
}

/// What is left of some bytes that are read field by field.
#[derive(Clone, Copy)]
struct Fields<'a> {
    rest: &'a [u8],
}

impl Fields<'_> {
    /// The next bytes, or zeros where fewer are left.
    fn next<const N: usize>(&mut self) -> [u8; N] {
        let Some((field, rest)) = self.rest.split_first_chunk::<N>() else {
            return [0; N];
        };
        self.rest = rest;
        *field
    }

    fn byte(&mut self) -> u8 {
        u8::from_le_bytes(self.next())
    }

    fn pair(&mut self) -> u16 {
        u16::from_le_bytes(self.next())
    }

    fn word(&mut self) -> u32 {
        u32::from_le_bytes(self.next())
    }
}

fn find_rows<'a>(heap: Global, bytes: &'a [u8]) -> Result<Rows<'a>, AllocError> {
    let mut rows = Vec::new(heap);
    let place_of = |rest: &[u8]| bytes.len().saturating_sub(rest.len());
    let mut rest = bytes;
    while let [l0, l1, k0, k1, tail @ ..] = rest {
        let length = usize::from(u16::from_le_bytes([*l0, *l1]));
        let Some((body, next)) = tail.split_at_checked(length) else {
            break;
        };
        let kind = Kind::try_from(u16::from_le_bytes([*k0, *k1]));
        let place = place_of(rest);
        rows.push(Row { place, kind, body })?;
        rest = next;
    }
    let torn = (!rest.is_empty()).then_some(place_of(rest));
    Ok(Rows { rows, torn })
}

fn station_in(body: &[u8]) -> Station {
    let mut fields = Fields { rest: body };
    Station {
        class: fields.byte(),
        number: fields.byte(),
        first: fields.word(),
        second: fields.word(),
        third: fields.pair(),
    }
}

/// A name of these bytes, if all are letters that a name may have.
fn name_in(bytes: &[u8]) -> Result<Name, Question> {
    let right = bytes.iter().all(|letter| letter.is_ascii_lowercase()
        || letter.is_ascii_digit()
        || *letter == b'-');
    ask(right, Question::Spelling)?;
    Ok(spelled(bytes))
}

fn activity_in(body: &[u8]) -> Result<Activity, Question> {
    let mut fields = Fields { rest: body };
    Ok(Activity {
        class: fields.byte(),
        station: fields.byte(),
        mark: fields.byte(),
        priority: fields.byte(),
        queue: fields.byte(),
        size: fields.byte(),
        period: fields.word(),
        duration: fields.word(),
        held: fields.word(),
        offset: fields.word(),
        deadline: fields.word(),
        name: name_in(fields.rest)?,
    })
}

fn link_in(body: &[u8]) -> Link {
    let mut fields = Fields { rest: body };
    Link {
        from: usize::from(fields.byte()),
        to: usize::from(fields.byte()),
    }
}

/// What a row of this file says.
fn record_in(source: Source, row: Row<'_>) -> Result<Record, Question> {
    let length = row.body.len();
    match (source, row.kind?) {
        (Source::Cell, Kind::Station) => {
            ask(length == 12, Question::Length)?;
            Ok(Record::Station(station_in(row.body)))
        }
        (Source::Process, Kind::Activity) => {
            ask(length >= 27 && length <= 42, Question::Length)?;
            Ok(Record::Activity(activity_in(row.body)?))
        }
        (Source::Process, Kind::Link) => {
            ask(length == 2, Question::Length)?;
            Ok(Record::Link(link_in(row.body)))
        }
        _ => Err(Question::Kind),
    }
}

/// What a row says, if the machine as read so far can have it.
fn read_row(machine: &Machine, source: Source, row: Row<'_>) -> Result<Record, Question> {
    let record = record_in(source, row)?;
    ask_record(machine, &record)?;
    Ok(record)
}

/// The part of the two files that a fault is about: the rest of the file where a record is not
/// whole, nothing where the file is too long, otherwise the record.
pub fn faulty_part(heap: Global, files: Files<'_>, fault: &Fault) -> Result<Vec<u8>, AllocError> {
    let rest = files.of(fault.source).get(fault.place..).unwrap_or(&[]);
    let length = match fault.question {
        Question::FileSize => 0,
        Question::WholeRecord => rest.len(),
        _ => usize::from(Fields { rest }.pair()).saturating_add(4),
    };
    rest.iter().take(length).copied().collect(heap)
}

/// Adds what one file says, up to its first fault.
fn read_file(
    heap: Global,
    source: Source,
    bytes: &[u8],
    machine: &mut Machine,
) -> Result<(), Stop> {
    let fault = |place, question| Fault {
        source,
        place,
        question,
    };
    ask(bytes.len() <= MOST_BYTES, Question::FileSize).map_err(|question| fault(0, question))?;
    let Rows { rows, torn } = find_rows(heap, bytes)?;
    for row in rows.iter() {
        let read = read_row(machine, source, *row);
        let record = read.map_err(|question| fault(row.place, question))?;
        machine.add(record)?;
    }
    match torn {
        Some(place) => Err(Stop::Faulty(fault(place, Question::WholeRecord))),
        None => Ok(()),
    }
}

/// Adds what the two files say, up to the first fault, those of the cell file first.
pub fn read_files(heap: Global, files: Files<'_>, machine: &mut Machine) -> Result<(), Stop> {
    read_file(heap, Source::Cell, files.cell, machine)?;
    read_file(heap, Source::Process, files.process, machine)
}
