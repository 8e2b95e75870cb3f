//! The reckoner's own questions about records of a machine, in their order.
use crate::machine::{Activity, Class, Link, Machine, Record, Station};
use crate::question::{Question, ask};

/// Are class, station and figures of a station in range?
fn has_figures(station: &Station) -> bool {
    let Station {
        class,
        number,
        first,
        second,
        third,
    } = *station;
    let figures = match Class::try_from(class) {
        Ok(Class::Table | Class::Processor) => first == 0 && second == 0 && third == 0,
        Ok(Class::Bus) => (1..=100).contains(&first) && second == 0 && third == 0,
        Ok(Class::Gateway) => {
            let round = (1..=100_000).contains(&first);
            round && second >= 1 && second <= first && (1..=240).contains(&third)
        }
        Err(_) => false,
    };
    figures && number < 8
}

fn ask_station(machine: &Machine, station: &Station) -> Result<(), Question> {
    ask(has_figures(station), Question::Figures)?;
    // Kept by hand: a derived equality would ask about the figures too.
    let taken = machine.stations.iter().any(|other| other.class == station.class
        && other.number == station.number);
    ask(!taken, Question::NewStation)
}

fn is_admitted(machine: &Machine, activity: &Activity) -> bool {
    let Some(station) = machine.station_of(activity) else {
        return false;
    };
    let size = u16::from(activity.size);
    let plain = activity.queue == 0 && activity.held == 0;
    match activity.kind() {
        Some(Class::Table) => plain && size == 0 && activity.mark == 1,
        Some(Class::Processor) => activity.queue == 0 && size == 0 && activity.mark == 0,
        Some(Class::Bus) => {
            let fits = activity.duration == station.frame_ticks(activity.size);
            fits && size <= 8 && activity.held == 0 && activity.mark == 0
        }
        Some(Class::Gateway) => {
            let fits = activity.duration == station.second && size >= 1 && size <= station.third;
            fits && plain && activity.mark == 0
        }
        None => false,
    }
}

/// What is asked of an activity that stands at a place of its own or is new.
fn ask_figures(machine: &Machine, place: usize, activity: &Activity) -> Result<(), Question> {
    let rising = activity.duration <= activity.deadline && activity.deadline <= activity.period;
    ask(rising && activity.duration != 0, Question::Limits)?;
    let start = activity.held <= activity.duration && activity.offset < activity.period;
    ask(start && activity.mark < 2, Question::Start)?;
    let clash = machine.activities.iter().enumerate().any(|(number, other)| {
        number != place && activity.meets(other) && activity.priority == other.priority
    });
    ask(!clash, Question::NewPriority)?;
    ask(is_admitted(machine, activity), Question::Admission)
}

pub fn ask_entry(machine: &Machine, activity: &Activity) -> Result<(), Question> {
    let count = machine.activities.len();
    ask(count < 64, Question::RoomForItem)?;
    let period = (1..=1_000_000).contains(&activity.period);
    ask(period, Question::Period)?;
    ask_figures(machine, count, activity)
}

pub fn ask_change(machine: &Machine, number: usize, activity: &Activity) -> Result<(), Question> {
    let old = machine.activities.get(number).ok_or(Question::KnownItem)?;
    // Kept by hand: a derived equality would ask about all fields, and some may change.
    let same = old.meets(activity) && old.mark == activity.mark && old.period == activity.period;
    ask(same, Question::SameItem)?;
    ask_figures(machine, number, activity)
}

pub fn ask_link(machine: &Machine, link: Link) -> Result<(), Question> {
    let activities = machine.activities.as_slice();
    let from = activities.get(link.from).ok_or(Question::KnownItem)?;
    let to = activities.get(link.to).ok_or(Question::KnownItem)?;
    let rising = link.from < link.to && from.period == to.period;
    ask(rising, Question::ArcOrder)?;
    ask(!machine.links.as_slice().contains(&link), Question::NewArc)?;
    ask(machine.links.len() < 128, Question::RoomForArc)
}

pub fn ask_record(machine: &Machine, record: &Record) -> Result<(), Question> {
    match record {
        Record::Station(station) => ask_station(machine, station),
        Record::Activity(activity) => ask_entry(machine, activity),
        Record::Link(link) => ask_link(machine, *link),
    }
}
