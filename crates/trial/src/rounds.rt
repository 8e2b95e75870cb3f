//! The least times of a machine in whole rounds: every activity's next times come from those of the
//! round before, until a round changes nothing or shows a time that is too large.
use crate::machine::Machine;
use crate::waits::{Moment, Reckoning, START};
use std::alloc::{AllocError, Global};

/// More rounds than any machine needs: each but the last raises a time of some activity, and none
/// above its deadline.
fn enough_rounds(machine: &Machine) -> u64 {
    let deadlines = machine.activities.iter().map(|own| u64::from(own.deadline));
    deadlines.fold(2, |rounds: u64, deadline| rounds.saturating_add(deadline))
}

fn one_round(heap: Global, now: Reckoning<'_>) -> Result<Vec<Moment>, AllocError> {
    (0..now.machine.activities.len())
        .map(|number| now.next(number))
        .collect(heap)
}

fn too_large(now: Reckoning<'_>) -> bool {
    let mut timed = now.machine.activities.iter().zip(now.moments.iter());
    timed.any(|(own, times)| times.breaks(own).is_some())
}

/// The least lawful times, or nothing where no times are lawful.
pub fn least_times(heap: Global, machine: &Machine) -> Result<Option<Vec<Moment>>, AllocError> {
    let mut moments = vec![in heap; START; machine.activities.len()]?;
    for _ in 0..enough_rounds(machine) {
        let next = one_round(heap, machine.at(moments.as_slice()))?;
        if too_large(machine.at(next.as_slice())) {
            return Ok(None);
        }
        if next == moments {
            return Ok(Some(next));
        }
        moments = next;
    }
    Ok(None)
}
