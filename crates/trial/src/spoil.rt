//! Faults put into good machines and good files. Which question finds one is left to those who read
//! the files: another fault, or none, may come of it.
// Kept as numbers: each fault is a draw, and an enum would name what its one arm says.
// Kept as two parameters, a seed and a machine: the same seed is drawn from before and after.
use crate::encode::Encoded;
use crate::machine::{Activity, Class, Link, Machine, Station};
use crate::seed::Seed;
use std::alloc::AllocError;

/// A record with limits or a start that do not fit.
pub fn misfit(seed: &mut Seed, good: Activity) -> Activity {
    let mut bad = good;
    match seed.number(0, 9) {
        0 => bad.period = 0,
        1 => bad.period = 1_000_001,
        2 => bad.period = seed.number(1_000_001, u32::MAX),
        3 => bad.duration = 0,
        4 => bad.deadline = good.duration.saturating_sub(1),
        5 => bad.deadline = good.period.saturating_add(1),
        6 => bad.mark = seed.byte(2, 255),
        7 => bad.held = good.duration.saturating_add(1),
        8 => bad.offset = good.period,
        _ => bad.offset = seed.number(good.period, u32::MAX),
    }
    bad
}

/// An activity of a size at the edge of what its station takes, with the duration that goes with it.
fn resized(seed: &mut Seed, machine: &Machine, good: Activity) -> Activity {
    let Some(station) = machine.station_of(&good) else {
        return good;
    };
    match good.kind() {
        Some(Class::Bus) => {
            let size = seed.byte(8, 10);
            Activity {
                size,
                duration: station.frame_ticks(size),
                ..good
            }
        }
        Some(Class::Gateway) => {
            let capacity = u8::try_from(station.third).unwrap_or(0);
            Activity {
                size: capacity.saturating_add(seed.byte(0, 1)),
                ..good
            }
        }
        _ => Activity { size: 1, ..good },
    }
}

/// A record that its class should not admit.
pub fn stranger(seed: &mut Seed, machine: &Machine, good: Activity) -> Activity {
    let mut bad = good;
    match seed.number(0, 12) {
        0 => bad.class = seed.byte(5, 255),
        1 => bad.class = seed.byte(0, 5),
        2 => bad.station = seed.byte(0, 9),
        3 => bad.mark = 1u8.saturating_sub(good.mark),
        4 => bad.size = good.size.wrapping_add(1),
        5 => bad.size = seed.byte(0, 255),
        6 => bad.queue = seed.byte(1, 255),
        7 => bad.held = seed.number(1, good.duration),
        8 => bad.duration = good.duration.saturating_add(1),
        9..=11 => bad = resized(seed, machine, good),
        _ => bad.duration = good.duration.saturating_sub(1),
    }
    bad
}

pub fn spoil_activities(seed: &mut Seed, machine: &mut Machine) -> Result<(), AllocError> {
    let at = seed.index(machine.activities.len());
    let good = machine.activities.get(at).copied().unwrap_or_default();
    match seed.number(0, 4) {
        0 => machine.activities.push(good)?,
        1..=2 => machine.change(at, misfit(seed, good)),
        _ => {
            let bad = stranger(seed, machine, good);
            machine.change(at, bad);
        }
    }
    Ok(())
}

/// An arc of which one end or both may have no item.
fn odd_link(seed: &mut Seed, count: usize) -> Link {
    match seed.number(0, 3) {
        0 => Link {
            from: seed.index(count),
            to: count,
        },
        1 => Link {
            from: seed.index(count),
            to: seed.index(256),
        },
        2 => Link {
            from: seed.index(256),
            to: seed.index(count),
        },
        _ => Link {
            from: seed.index(count),
            to: seed.index(count),
        },
    }
}

pub fn spoil_links(seed: &mut Seed, machine: &mut Machine) -> Result<(), AllocError> {
    let known = seed.any_of(machine.links.as_slice());
    let bad = match known {
        Some(link) if seed.once_in(2) => link,
        _ => odd_link(seed, machine.activities.len()),
    };
    machine.links.push(bad)?;
    Ok(())
}

/// As many arcs as a sheet takes, and a few more.
pub fn weave(machine: &mut Machine, most: usize) -> Result<(), AllocError> {
    let count = machine.activities.len();
    let links = (0..count).flat_map(|to| (0..to).map(move |from| Link { from, to }));
    machine.links.clear();
    machine.links.extend(links.take(most))
}

fn odd_station(seed: &mut Seed, good: Station) -> Station {
    let mut bad = good;
    match seed.number(0, 9) {
        0 => bad.class = seed.byte(0, 6),
        1 => bad.class = seed.byte(0, 255),
        2 => bad.number = seed.byte(7, 9),
        3 => bad.first = 0,
        4 => bad.first = seed.one_of(&[1, 100, 101, 100_000, 100_001, u32::MAX]),
        5 => bad.second = 0,
        6 => bad.second = good.first.saturating_add(seed.number(0, 1)),
        7 => bad.second = 1,
        8 => bad.third = seed.one_of(&[0, 1, 240, 241, 65_535]),
        _ => bad.third = 0,
    }
    bad
}

pub fn spoil_stations(seed: &mut Seed, machine: &mut Machine) -> Result<(), AllocError> {
    let at = seed.index(machine.stations.len());
    let Some(good) = machine.stations.get(at).copied() else {
        return Ok(());
    };
    if seed.once_in(3) {
        machine.stations.push(good)?;
    } else if let Some(slot) = machine.stations.get_mut(at) {
        *slot = odd_station(seed, good);
    }
    Ok(())
}

/// Lengthens a file to about the most that one may have.
fn swell(seed: &mut Seed, file: &mut Encoded) -> Result<(), AllocError> {
    // Kept as a cast: no `From` leads from u32 to usize.
    let most = seed.number(16_383, 16_386) as usize;
    file.bytes.resize(most.max(file.bytes.len()), 0)
}

/// A byte that is next to those a name may have, or any.
fn odd_letter(seed: &mut Seed) -> u8 {
    seed.one_of(&[44, 46, 47, 58, 65, 90, 95, 96, 123, 128, 255, 0])
}

pub fn spoil_bytes(seed: &mut Seed, file: &mut Encoded) -> Result<(), AllocError> {
    let row = seed.index(file.places.len());
    let place = file.places.get(row).copied().unwrap_or(0);
    let end = file.bytes.len();
    let next = file
        .places
        .get(row.saturating_add(1))
        .copied()
        .unwrap_or(end);
    let length = next.saturating_sub(place).saturating_sub(4);
    let length = u8::try_from(length).unwrap_or(0);
    match seed.number(0, 9) {
        0 => swell(seed, file)?,
        1 => file.bytes.truncate(seed.index(end)),
        2 => file.put(place.saturating_add(2), seed.byte(0, 4)),
        3 => file.put(place.saturating_add(3), 1),
        4 => file.put(place, length.wrapping_sub(1)),
        5 => file.put(place, length.wrapping_add(1)),
        6 => file.put(place, seed.byte(0, 50)),
        7 => file.put(next.saturating_sub(1), odd_letter(seed)),
        8 => file.bytes.push(seed.byte(0, 255))?,
        _ => file.put(seed.index(end), seed.byte(0, 255)),
    }
    Ok(())
}
