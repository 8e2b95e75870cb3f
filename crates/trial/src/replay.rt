//! A sheet of the reckoner's own: single steps and runs, one activity after the other.
use crate::machine::Machine;
use crate::verdict::{Became, Cause, Ending, Line, Ran};
use crate::waits::{Moment, Reckoning, START};
use std::alloc::{AllocError, Global};

#[derive(Drop)]
pub struct Plan {
    pub machine: Machine,
    // Kept beside the activities: the rounds come to a whole list of times, to be compared with it.
    pub moments: Vec<Moment>,
    // Kept as a flag: no call asks again what broke the plan, and the times stay as they were.
    pub broken: bool,
}

impl Plan {
    pub fn new(heap: Global, machine: Machine) -> Result<Plan, AllocError> {
        let moments = vec![in heap; START; machine.activities.len()]?;
        Ok(Plan {
            machine,
            moments,
            broken: false,
        })
    }

    /// Forgets all times and any break.
    pub fn begin_again(&mut self) -> Result<(), AllocError> {
        self.moments.clear();
        self.moments.resize(self.machine.activities.len(), START)?;
        self.broken = false;
        Ok(())
    }

    /// The machine at the times that the plan has come to.
    pub fn now(&self) -> Reckoning<'_> {
        self.machine.at(self.moments.as_slice())
    }

    /// The times that a step on the activity would write, or why it would break.
    fn judge(&self, number: usize) -> Result<Moment, Cause> {
        let new = self.now().next(number);
        let own = self.machine.activities.get(number);
        match own.and_then(|own| new.breaks(own)) {
            Some(cause) => Err(cause),
            None => Ok(new),
        }
    }

    fn write(&mut self, number: usize, new: Moment) -> Became {
        let Some(slot) = self.moments.get_mut(number) else {
            return Became::Quiet;
        };
        let old = *slot;
        *slot = new;
        if new.exceeds(&old) {
            Became::Raised
        } else {
            Became::Quiet
        }
    }

    pub fn step(&mut self, number: usize) -> Became {
        match self.judge(number) {
            Ok(new) => self.write(number, new),
            Err(cause) => {
                self.broken = true;
                Became::Broke(cause)
            }
        }
    }

    /// Steps on one activity after the other, up to this many, until all are quiet or one breaks.
    pub fn run(&mut self, allowance: u64) -> Ran {
        let count = self.machine.activities.len();
        let mut ran = Ran {
            ending: if count == 0 {
                Ending::Settled
            } else {
                Ending::Spent
            },
            steps: 0,
            raises: 0,
        };
        // Kept as counts by hand, here and of the raises: they count what steps became, not turns.
        let mut quiet: usize = 0;
        for (step, number) in (1..=allowance).zip((0..count).cycle()) {
            ran.steps = step;
            match self.step(number) {
                Became::Raised => {
                    ran.raises = ran.raises.saturating_add(1);
                    quiet = 0;
                }
                Became::Quiet => quiet = quiet.saturating_add(1),
                Became::Broke(cause) => {
                    ran.ending = Ending::Broken(number, cause);
                    break;
                }
            }
            if quiet == count {
                ran.ending = Ending::Settled;
                break;
            }
        }
        ran
    }

    /// Would a step on each activity be quiet?
    pub fn is_settled(&self) -> bool {
        let mut timed = self.moments.iter().enumerate();
        let quiet = timed.all(|(number, old)| match self.judge(number) {
            Ok(new) => !new.exceeds(old),
            Err(_) => false,
        });
        quiet && !self.broken
    }

    /// (S + 1) × n, where S is the sum of deadline − duration over the n activities.
    pub fn enough(&self) -> u64 {
        let activities = self.machine.activities.as_slice();
        let rooms = activities
            .iter()
            .map(|own| own.deadline.saturating_sub(own.duration));
        let room = rooms.fold(1, |sum: u64, room| sum.saturating_add(u64::from(room)));
        // Kept as a cast: no `From` leads from usize to u64.
        room.saturating_mul(activities.len() as u64)
    }

    /// The times of all activities.
    pub fn lines(&self, heap: Global) -> Result<Vec<Line>, AllocError> {
        let timed = self.machine.activities.iter().zip(self.moments.iter());
        timed
            .enumerate()
            .map(|(number, (own, times))| Line {
                number,
                late: times.late,
                wait: times.wait,
                end: times.end(own),
            })
            .collect(heap)
    }
}
