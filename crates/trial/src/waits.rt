//! What one look at a machine and its times gives an activity: its next late time and wait, and the
//! bytes in its queue.
use crate::machine::{Activity, Class, Machine, Outlet};
use crate::verdict::{Bound, Cause};

/// The late time and the wait of one activity.
#[derive(Clone, Copy, PartialEq)]
pub struct Moment {
    pub late: u64,
    pub wait: u64,
}

pub const START: Moment = Moment { late: 0, wait: 0 };

/// A machine at given times of its activities, in their order.
#[derive(Clone, Copy)]
pub struct Reckoning<'a> {
    pub machine: &'a Machine,
    // Kept beside the machine: a round makes a whole new list of times for the same activities.
    pub moments: &'a [Moment],
}

/// How many releases of `other` come before `own`, which waits `wait` ticks, has its turn.
fn turns(own: &Activity, wait: u64, other: &Activity, late: u64) -> u64 {
    let jitter = late.saturating_sub(u64::from(other.offset));
    let span = wait.saturating_add(jitter);
    let period = u64::from(other.period).max(1);
    if own.kind() == Some(Class::Processor) {
        span.saturating_add(u64::from(own.duration))
            .div_ceil(period)
    } else {
        (span / period).saturating_add(1)
    }
}

impl Moment {
    /// Is it later or longer than the old one?
    pub fn exceeds(&self, old: &Moment) -> bool {
        self.late > old.late || self.wait > old.wait
    }

    /// When an activity with these times ends.
    pub fn end(&self, activity: &Activity) -> u64 {
        let ready = self.late.saturating_add(self.wait);
        ready.saturating_add(u64::from(activity.duration))
    }

    /// Why an activity can't have these times, if it can't.
    pub fn breaks(&self, activity: &Activity) -> Option<Cause> {
        if activity.mark == 1 && self.late > u64::from(activity.offset) {
            Some(Cause::Input)
        } else if self.end(activity) > u64::from(activity.deadline) {
            Some(Cause::Limit)
        } else {
            None
        }
    }
}

impl Machine {
    /// The machine at these times.
    pub fn at<'a>(&'a self, moments: &'a [Moment]) -> Reckoning<'a> {
        Reckoning {
            machine: self,
            moments,
        }
    }
}

impl<'a> Reckoning<'a> {
    /// An activity and its times.
    fn timed(&self, number: usize) -> Option<(&'a Activity, Moment)> {
        let own = self.machine.activities.get(number)?;
        let times = self.moments.get(number)?;
        Some((own, *times))
    }

    /// When an activity ends, or 0 where there is none.
    pub fn end(&self, number: usize) -> u64 {
        match self.timed(number) {
            Some((own, times)) => times.end(own),
            None => 0,
        }
    }

    /// What the stronger ones bring before an activity that waits so long has its turn.
    fn brought<F: Fn(&Activity) -> u64>(&self, own: &Activity, wait: u64, weight: F) -> u64
        requires { F.IsAlwaysCallable weight }
    {
        let mut total: u64 = 0;
        for (other, times) in self.machine.activities.iter().zip(self.moments.iter()) {
            if own.meets(other) && other.priority < own.priority {
                let often = turns(own, wait, other, times.late);
                total = total.saturating_add(often.saturating_mul(weight(other)));
            }
        }
        total
    }

    /// The longest that a weaker one keeps the station.
    fn kept_off(&self, own: &Activity) -> u64 {
        let holds = own.kind() == Some(Class::Processor);
        let longest = self
            .machine
            .activities
            .iter()
            .filter(|other| own.meets(other) && other.priority > own.priority)
            .map(|other| if holds { other.held } else { other.duration })
            .max();
        u64::from(longest.unwrap_or(0))
    }

    fn wait(&self, own: &Activity, wait: u64) -> u64 {
        match own.kind() {
            Some(Class::Processor | Class::Bus) => {
                let pressed = self.brought(own, wait, |other| u64::from(other.duration));
                self.kept_off(own).saturating_add(pressed)
            }
            Some(Class::Gateway) => {
                let Some(gateway) = self.machine.station_of(own) else {
                    return 0;
                };
                let pressed = self.brought(own, wait, |other| u64::from(other.size));
                let bytes = pressed.saturating_add(u64::from(own.size));
                let slots = bytes.div_ceil(u64::from(gateway.third).max(1));
                let rounds = slots.saturating_add(1);
                rounds.saturating_mul(u64::from(gateway.first))
            }
            Some(Class::Table) | None => 0,
        }
    }

    /// The next times of an activity, from the given ones of all.
    pub fn next(&self, number: usize) -> Moment {
        let Some((own, times)) = self.timed(number) else {
            return START;
        };
        let ends = self
            .machine
            .links
            .iter()
            .filter(|link| link.to == number)
            .map(|link| self.end(link.from));
        Moment {
            late: ends.fold(u64::from(own.offset), |late, end| late.max(end)),
            wait: self.wait(own, times.wait),
        }
    }

    /// The bytes that can lie in the queue of an activity that waits so long.
    fn bytes(&self, own: &Activity, wait: u64) -> u64 {
        let pressed = match own.kind() {
            Some(Class::Bus) => self.brought(own, wait, |other| {
                if other.outlet() == own.outlet() {
                    u64::from(other.size)
                } else {
                    0
                }
            }),
            Some(Class::Gateway) => self.brought(own, wait, |other| u64::from(other.size)),
            _ => return 0,
        };
        u64::from(own.size).saturating_add(pressed)
    }

    /// The bound of a queue, if an activity uses it.
    pub fn bound(&self, outlet: Outlet) -> Option<Bound> {
        let timed = self.machine.activities.iter().zip(self.moments.iter());
        timed
            .enumerate()
            .filter(|(_, (own, _))| own.outlet() == outlet)
            .map(|(item, (own, times))| Bound {
                bytes: self.bytes(own, times.wait),
                item,
            })
            .reduce(|highest, bound| {
                if bound.bytes > highest.bytes {
                    bound
                } else {
                    highest
                }
            })
    }
}
