//! What a machine is to the reckoner: plain records, in the order of the files.
use crate::question::Question;
use arrayvec::ArrayString;
use std::alloc::{AllocError, Global};

/// The name of an activity.
pub type Name = ArrayString<16>;

/// A class of stations, by the number that the files give it.
#[derive(Clone, Copy, PartialEq)]
pub enum Class {
    Table = 1,
    Processor,
    Bus,
    Gateway,
}

impl Class {
    pub const ALL: [Class; 4] = [Class::Table, Class::Processor, Class::Bus, Class::Gateway];
}

/// A number that no class has.
// It stands for no function: an error with nothing to tell.
#[derive(Clone, Copy)]
pub struct UnknownClass;

impl TryFrom<u8> for Class {
    type Error = UnknownClass;

    fn try_from(number: u8) -> Result<Class, UnknownClass> {
        match number {
            1 => Ok(Class::Table),
            2 => Ok(Class::Processor),
            3 => Ok(Class::Bus),
            4 => Ok(Class::Gateway),
            _ => Err(UnknownClass),
        }
    }
}

/// What a record is about, by the number that the files give it.
#[derive(Clone, Copy, PartialEq)]
pub enum Kind {
    Station = 1,
    Activity,
    Link,
}

impl TryFrom<u16> for Kind {
    type Error = Question;

    fn try_from(number: u16) -> Result<Kind, Question> {
        match number {
            1 => Ok(Kind::Station),
            2 => Ok(Kind::Activity),
            3 => Ok(Kind::Link),
            _ => Err(Question::Kind),
        }
    }
}

/// What the cell file says of a station. What the three figures mean depends on the class.
#[derive(Clone, Copy, Default)]
pub struct Station {
    // Kept as a number: files give the class as one, and a spoilt file any.
    pub class: u8,
    pub number: u8,
    pub first: u32,
    pub second: u32,
    pub third: u16,
}

/// What the process file says of an item.
#[derive(Clone, Copy)]
pub struct Activity {
    // Kept as a number: files give the class as one, and a spoilt file any.
    pub class: u8,
    pub station: u8,
    // Kept as a number: files give the mark as one, and a spoilt file any.
    pub mark: u8,
    pub priority: u8,
    pub queue: u8,
    pub size: u8,
    pub period: u32,
    pub duration: u32,
    pub held: u32,
    pub offset: u32,
    pub deadline: u32,
    pub name: Name,
}

/// An arc, by the numbers of its items.
#[derive(Clone, Copy, PartialEq)]
pub struct Link {
    pub from: usize,
    pub to: usize,
}

/// An output queue of a station.
#[derive(Clone, Copy, PartialEq)]
pub struct Outlet {
    // Kept as a number: a caller may ask for the queues of any class.
    pub class: u8,
    pub station: u8,
    pub queue: u8,
}

/// A record of one of the files.
#[derive(Clone, Copy)]
pub enum Record {
    Station(Station),
    Activity(Activity),
    Link(Link),
}

// Kept apart from the heap that many calls take beside it: that is for what they make, not for it.
#[derive(Drop)]
pub struct Machine {
    pub stations: Vec<Station>,
    pub activities: Vec<Activity>,
    pub links: Vec<Link>,
}

impl Default for Activity {
    /// The smallest record with limits. It stands in where a machine has no activity to draw.
    fn default() -> Activity {
        Activity {
            class: 0,
            station: 0,
            mark: 0,
            priority: 0,
            queue: 0,
            size: 0,
            period: 1,
            duration: 1,
            held: 0,
            offset: 0,
            deadline: 1,
            name: spelled(b"a"),
        }
    }
}

/// A name of these letters, or of the first 16.
pub fn spelled(letters: &[u8]) -> Name {
    let mut name = Name::new();
    for letter in letters {
        // A letter that no longer fits is dropped.
        let _ = name.try_push(char::from(*letter));
    }
    name
}

impl Station {
    /// How long a message of so many bytes takes on this bus.
    pub fn frame_ticks(&self, size: u8) -> u32 {
        let bits = u32::from(size).saturating_mul(10).saturating_add(55);
        bits.saturating_mul(self.first)
    }
}

impl Activity {
    pub fn kind(&self) -> Option<Class> {
        Class::try_from(self.class).ok()
    }

    pub fn outlet(&self) -> Outlet {
        Outlet {
            class: self.class,
            station: self.station,
            queue: self.queue,
        }
    }

    /// Do the two compete for one station?
    // Kept by hand: a derived equality would ask about all fields, and this asks about two.
    pub fn meets(&self, other: &Activity) -> bool {
        self.class == other.class && self.station == other.station
    }
}

impl Machine {
    pub fn new(heap: Global) -> Machine {
        Machine {
            stations: Vec::new(heap),
            activities: Vec::new(heap),
            links: Vec::new(heap),
        }
    }

    pub fn add(&mut self, record: Record) -> Result<(), AllocError> {
        match record {
            Record::Station(station) => self.stations.push(station)?,
            Record::Activity(activity) => self.activities.push(activity)?,
            Record::Link(link) => self.links.push(link)?,
        }
        Ok(())
    }

    /// Puts another activity in the place of the one with this number.
    pub fn change(&mut self, number: usize, activity: Activity) {
        if let Some(slot) = self.activities.get_mut(number) {
            *slot = activity;
        }
    }

    /// The station of an activity, if the cell has it.
    pub fn station_of(&self, activity: &Activity) -> Option<Station> {
        self.stations
            .iter()
            .find(|station| station.class == activity.class && station.number == activity.station)
            .copied()
    }
}
