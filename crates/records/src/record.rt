ghost use Rattle.std.specs.Prelude.{◌≡◌, ◌<◌, ◌≤◌, length, IfOk, IfErr};
ghost use Rattle.records.specs.Faults.{number_of};
ghost use Rattle.records.specs.Kinds.{kind_of};
ghost use Rattle.records.specs.Records.{arc_of, read_of, read_as, record_of, record_as};

use crate::bytes::cut;
use crate::fault::{Refusal, SourceFile};
use crate::item::read_item;
use crate::station::read_station;
use model::arc::Arc;
use model::item::Item;
use rules::can::Bus;
use rules::gateway::Slot;

/// The class of a station, with the figures that the class has.
#[derive(Clone, Copy)]
pub enum Figures {
    Table,
    Processor,
    Can(Bus),
    Gateway(Slot),
}

/// A station of the cell.
#[derive(Clone, Copy)]
pub struct StationRecord {
    pub station: u8,
    pub figures: Figures,
}

/// An item with its name, which is a part of the file.
#[derive(Clone, Copy)]
pub struct ItemRecord<'a> {
    pub item: Item,
    pub name: &'a str,
}

/// What a record says.
#[derive(Clone, Copy)]
pub enum Record<'a> {
    Station(StationRecord),
    Item(ItemRecord<'a>),
    Arc(Arc),
}

/// What a record tells of.
#[derive(Clone, Copy)]
enum Kind {
    Station,
    Item,
    Arc,
}

impl TryFrom<u16> for Kind {
    type Error = Refusal;

    ghost try_from_gives = { λ number kind. kind ≡ kind_of number };

    fn try_from(number: u16) -> Result<Kind, Refusal> {
        match number {
            1 => Ok(Kind::Station),
            2 => Ok(Kind::Item),
            3 => Ok(Kind::Arc),
            _ => Err(Refusal::StrangeKind),
        }
    }
}

/// The arc that a body of 2 bytes tells of.
fn read_arc(body: &[u8]) -> Result<Arc, Refusal>
    ensures { result ≡ arc_of body.now }
{
    match body {
        [from, to] => Ok(Arc {
            from: *from,
            to: *to,
        }),
        _ => Err(Refusal::WrongLength),
    }
}

/// What the body of a record of this kind says, in this file.
// Inlined, as `first_record` and `Rows::next`: a record handed out through memory takes twice as long to
// read as one that is used where it is made.
#[inline(always)]
fn read<'a>(file: SourceFile, kind: u16, body: &'a [u8]) -> Result<Record<'a>, Refusal>
    ensures { read_as result ≡ read_of file kind body.now }
{
    match (file, Kind::try_from(kind)?) {
        (SourceFile::Cell, Kind::Station) => Ok(Record::Station(read_station(body)?)),
        (SourceFile::Process, Kind::Item) => Ok(Record::Item(read_item(body)?)),
        (SourceFile::Process, Kind::Arc) => Ok(Record::Arc(read_arc(body)?)),
        _ => Err(Refusal::StrangeKind),
    }
}

/// The record in front, and how many bytes it takes with its head.
#[inline(always)]
pub fn first_record<'a>(file: SourceFile, bytes: &'a [u8]) -> Result<(Record<'a>, usize), Refusal>
    ensures value { record_as result ≡ record_of file bytes.now }
    ensures within { IfOk result (λ p. (0 < p.1) × (p.1 ≤ length bytes.now)) }
    ensures own { IfErr result (λ refusal. number_of refusal ≤ 7) }
{
    let raw = cut(bytes).ok_or(Refusal::NotWhole)?;
    let record = read(file, raw.kind, raw.body)?;
    Ok((record, 4 + raw.body.len()))
}
