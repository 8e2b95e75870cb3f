//! A machine as the bytes of the two files.
use crate::machine::{Activity, Kind, Link, Machine};
use std::alloc::{AllocError, Global};

/// The bytes of a file, and the places of its records.
#[derive(Drop)]
pub struct Encoded {
    pub bytes: Vec<u8>,
    pub places: Vec<usize>,
}

/// Where the arcs stand in a process file.
#[derive(Clone, Copy, PartialEq)]
pub enum Order {
    /// After all items.
    Last,
    /// Right after the item that they lead to.
    Soon,
}

impl Encoded {
    fn new(heap: Global) -> Encoded {
        Encoded {
            bytes: Vec::new(heap),
            places: Vec::new(heap),
        }
    }

    /// Puts another byte at a place, where the file has it.
    pub fn put(&mut self, at: usize, byte: u8) {
        if let Some(slot) = self.bytes.get_mut(at) {
            *slot = byte;
        }
    }

    fn pair(&mut self, number: u16) -> Result<(), AllocError> {
        self.bytes.extend_from_slice(&number.to_le_bytes())
    }

    fn word(&mut self, number: u32) -> Result<(), AllocError> {
        self.bytes.extend_from_slice(&number.to_le_bytes())
    }

    fn head(&mut self, length: u16, kind: Kind) -> Result<(), AllocError> {
        self.places.push(self.bytes.len())?;
        self.pair(length)?;
        // Kept as a cast: the number of a kind is its discriminant.
        self.pair(kind as u16)
    }

    fn activity(&mut self, activity: &Activity) -> Result<(), AllocError> {
        let name = activity.name.as_str().as_bytes();
        let length = u16::try_from(name.len()).unwrap_or(1);
        self.head(length.saturating_add(26), Kind::Activity)?;
        self.bytes.extend_from_slice(&[
            activity.class,
            activity.station,
            activity.mark,
            activity.priority,
            activity.queue,
            activity.size,
        ])?;
        for ticks in [
            activity.period,
            activity.duration,
            activity.held,
            activity.offset,
            activity.deadline,
        ] {
            self.word(ticks)?;
        }
        self.bytes.extend_from_slice(name)
    }

    fn link(&mut self, link: &Link) -> Result<(), AllocError> {
        self.head(2, Kind::Link)?;
        let from = u8::try_from(link.from).unwrap_or(255);
        let to = u8::try_from(link.to).unwrap_or(255);
        self.bytes.extend_from_slice(&[from, to])
    }

    /// The arcs that `wanted` picks, in their order.
    fn links<F: Fn(&Link) -> bool>(
        &mut self,
        machine: &Machine,
        wanted: F,
    ) -> Result<(), AllocError>
        requires { F.IsAlwaysCallable wanted }
    {
        for link in machine.links.iter() {
            if wanted(link) {
                self.link(link)?;
            }
        }
        Ok(())
    }
}

pub fn cell_file(heap: Global, machine: &Machine) -> Result<Encoded, AllocError> {
    let mut file = Encoded::new(heap);
    for station in machine.stations.iter() {
        file.head(12, Kind::Station)?;
        file.bytes
            .extend_from_slice(&[station.class, station.number])?;
        file.word(station.first)?;
        file.word(station.second)?;
        file.pair(station.third)?;
    }
    Ok(file)
}

pub fn process_file(heap: Global, machine: &Machine, order: Order) -> Result<Encoded, AllocError> {
    let mut file = Encoded::new(heap);
    for (number, activity) in machine.activities.iter().enumerate() {
        file.activity(activity)?;
        if order == Order::Soon {
            file.links(machine, |link| link.to == number)?;
        }
    }
    let count = machine.activities.len();
    file.links(machine, |link| order == Order::Last || link.to >= count)?;
    Ok(file)
}
