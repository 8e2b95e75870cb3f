//! Machines drawn from a seed. Most are admitted; how much load they carry differs widely.
use crate::machine::{Activity, Class, Link, Machine, Name, Station, spelled};
use crate::seed::Seed;
use std::alloc::{AllocError, Global};

/// What the activities of one machine have in common.
#[derive(Clone, Copy)]
pub struct Style {
    pub count: usize,
    /// The longer of the two periods that most activities have.
    pub base: u32,
    /// How often the shorter one goes into the longer.
    pub spread: u32,
    /// Into how many parts a period is cut to get the longest duration of a process.
    pub share: u32,
    /// Most ticks are multiples of this, so that sums meet limits and periods exactly.
    pub grain: u32,
    /// Of so many arcs into a table's activity one is kept.
    pub inputs: u32,
    pub arcs: u32,
}

impl Style {
    pub fn draw(seed: &mut Seed) -> Style {
        // Kept as a number: a draw, which nothing but the arms below ever reads.
        let count = match seed.number(0, 39) {
            0 => 0,
            1 => seed.index(65),
            2..=3 => seed.index(30),
            _ => seed.index(12).saturating_add(1),
        };
        let most = u32::try_from(count.saturating_mul(3) / 2).unwrap_or(0);
        let spread: u32 = seed.one_of(&[1, 2, 3, 5, 10]);
        let base: u32 = seed.one_of(&[1000, 2500, 5000, 10_000, 50_000, 200_000, 1_000_000]);
        let base = base.max(spread.saturating_mul(1000));
        let short = base / spread.max(1);
        Style {
            count,
            base,
            spread,
            grain: seed.one_of(&[1, 1, short / 100, short / 20]),
            share: seed.one_of(&[3, 5, 10, 20, 60, 200]),
            inputs: seed.one_of(&[1, 2, 6]),
            arcs: seed.number(0, most),
        }
    }

    fn short_period(&self) -> u32 {
        self.base / self.spread.max(1)
    }

    fn rounded(&self, ticks: u32) -> u32 {
        (ticks / self.grain.max(1)).saturating_mul(self.grain)
    }
}

/// A station whose figures leave room within the period.
fn draw_station(seed: &mut Seed, class: Class, number: u8, period: u32) -> Station {
    let bare = Station {
        // Kept as a cast: the number of a class is its discriminant.
        class: class as u8,
        number,
        ..Station::default()
    };
    match class {
        Class::Bus => Station {
            first: seed.number(1, (period / 400).min(100)),
            ..bare
        },
        Class::Gateway => {
            let round = seed.number(1, (period / 16).min(100_000));
            Station {
                first: round,
                second: seed.number(1, round),
                third: u16::from(seed.byte(1, 240).min(seed.byte(1, 240))),
                ..bare
            }
        }
        Class::Table | Class::Processor => bare,
    }
}

/// The stations of one class, with numbers that follow one another and begin anew after 7.
fn draw_class(
    seed: &mut Seed,
    class: Class,
    period: u32,
    stations: &mut Vec<Station>,
) -> Result<(), AllocError> {
    let most = if seed.once_in(5) { 8 } else { 2 };
    let count = seed.byte(1, most);
    let first = seed.byte(0, 7);
    for number in first..first.saturating_add(count) {
        stations.push(draw_station(seed, class, number % 8, period))?;
    }
    Ok(())
}

fn draw_name(seed: &mut Seed) -> Name {
    // Kept as 16 letters with a length: all are drawn, however short the name is, so that what is
    // drawn next stays the same.
    let mut letters = [b' '; 16];
    for slot in letters.iter_mut() {
        *slot = seed.one_of(b"abcdefghijklmnopqrstuvwxyz0123456789-");
    }
    let length = seed.index(16).saturating_add(1);
    spelled(letters.get(..length).unwrap_or(&letters))
}

/// A message on a CAN bus, as long as its size asks for.
fn draw_frame(seed: &mut Seed, station: &Station, bare: Activity) -> Activity {
    let size = seed.byte(0, 8);
    Activity {
        size,
        queue: seed.byte(0, 3),
        duration: station.frame_ticks(size),
        ..bare
    }
}

/// A message through a gateway, now and then as large as its slot takes.
fn draw_cargo(seed: &mut Seed, station: &Station, bare: Activity) -> Activity {
    let capacity = u8::try_from(station.third).unwrap_or(1);
    let least = if seed.once_in(4) { capacity } else { 1 };
    Activity {
        size: seed.byte(least, capacity),
        duration: station.second,
        ..bare
    }
}

/// The figures that the class of the station asks for.
fn draw_work(seed: &mut Seed, station: &Station, style: &Style, bare: Activity) -> Activity {
    let most = bare.period / style.share.max(1);
    let duration = style.rounded(seed.number(1, most)).max(style.grain);
    match bare.kind() {
        Some(Class::Table) => Activity {
            mark: 1,
            duration,
            offset: style.rounded(seed.number(0, bare.period.saturating_sub(duration))),
            ..bare
        },
        Some(Class::Processor) => {
            let held = if seed.once_in(3) { duration } else { 0 };
            Activity {
                duration,
                held: style.rounded(seed.number(0, held)),
                ..bare
            }
        }
        Some(Class::Bus) => draw_frame(seed, station, bare),
        Some(Class::Gateway) | None => draw_cargo(seed, station, bare),
    }
}

fn draw_activity(seed: &mut Seed, station: Station, style: &Style, priority: u8) -> Activity {
    // Kept as a number: a draw, which nothing but the arms below ever reads.
    let period = match seed.number(0, 9) {
        0 if style.spread > 1 => style.base.saturating_mul(2).min(1_000_000),
        1..=4 => style.short_period(),
        _ => style.base,
    };
    let bare = Activity {
        class: station.class,
        station: station.number,
        priority,
        period,
        deadline: period,
        name: draw_name(seed),
        ..Activity::default()
    };
    let mut activity = draw_work(seed, &station, style, bare);
    if seed.once_in(6) {
        let deadline = style.rounded(seed.number(period / 2, period));
        activity.deadline = deadline.max(activity.duration);
    }
    if activity.mark == 0 && seed.once_in(2) {
        activity.offset = style.rounded(seed.number(0, period / 3));
    }
    activity
}

fn draw_activities(
    seed: &mut Seed,
    style: &Style,
    machine: &mut Machine,
) -> Result<(), AllocError> {
    // An odd step goes through all bytes, so no two priorities are the same.
    let mut priority = seed.byte(0, 255);
    let step = seed.byte(0, 127).wrapping_mul(2).wrapping_add(1);
    let stations = machine.stations.as_slice();
    let busy = seed.any_of(stations);
    for _ in 0..style.count {
        let any = seed.any_of(stations);
        let at = if seed.once_in(2) { busy } else { any };
        let station = at.unwrap_or_default();
        let activity = draw_activity(seed, station, style, priority);
        machine.activities.push(activity)?;
        priority = priority.wrapping_add(step);
    }
    Ok(())
}

/// An arc that the machine may have and has not yet, or none.
fn draw_link(seed: &mut Seed, style: &Style, machine: &Machine) -> Option<Link> {
    let from = seed.index(style.count);
    let to = seed.index(style.count);
    let first = machine.activities.get(from)?;
    let last = machine.activities.get(to)?;
    let link = Link { from, to };
    let wanted = last.mark == 0 || seed.once_in(style.inputs);
    let fits = from < to && first.period == last.period;
    let new = !machine.links.as_slice().contains(&link);
    (wanted && fits && new).then_some(link)
}

fn draw_links(seed: &mut Seed, style: &Style, machine: &mut Machine) -> Result<(), AllocError> {
    for _ in 0..style.arcs {
        if let Some(link) = draw_link(seed, style, machine) {
            machine.links.push(link)?;
        }
    }
    Ok(())
}

pub fn draw_machine(heap: Global, seed: &mut Seed, style: &Style) -> Result<Machine, AllocError> {
    let mut machine = Machine::new(heap);
    for class in Class::ALL {
        draw_class(seed, class, style.short_period(), &mut machine.stations)?;
    }
    draw_activities(seed, style, &mut machine)?;
    draw_links(seed, style, &mut machine)?;
    Ok(machine)
}
