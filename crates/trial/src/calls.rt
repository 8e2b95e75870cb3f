//! Calls on a sheet, and what the reckoner's plan answers to them.
use crate::machine::{Activity, Link, Machine, Outlet};
use crate::question::{Question, ask};
use crate::questions::{ask_change, ask_entry, ask_link};
use crate::replay::Plan;
use crate::seed::Seed;
use crate::spoil::{misfit, stranger};
use crate::verdict::{Answer, Line};
use std::alloc::{AllocError, Global};

#[derive(Clone, Copy)]
pub enum Call {
    Enter(Activity),
    Join(Link),
    Change(usize, Activity),
    Step(usize),
    Run(u64),
    /// Into a table with so many records.
    Times(usize),
    Queue(Outlet),
}

/// What stands in the caller's table where no times are written.
const UNTOUCHED: Line = Line {
    number: 77,
    late: 78,
    wait: 79,
    end: 80,
};

fn ask_unbroken(plan: &Plan) -> Result<(), Question> {
    ask(!plan.broken, Question::Unbroken)
}

fn ask_settled(plan: &Plan) -> Result<(), Question> {
    ask_unbroken(plan)?;
    ask(plan.is_settled(), Question::Settled)
}

/// The first question about a call that is answered with no.
fn ask_call(plan: &Plan, call: &Call) -> Result<(), Question> {
    let count = plan.machine.activities.len();
    match call {
        Call::Enter(activity) => ask_entry(&plan.machine, activity),
        Call::Join(link) => ask_link(&plan.machine, *link),
        Call::Change(number, activity) => ask_change(&plan.machine, *number, activity),
        Call::Step(number) => {
            ask(*number < count, Question::KnownItem)?;
            ask_unbroken(plan)
        }
        Call::Run(_) => ask_unbroken(plan),
        Call::Queue(_) => ask_settled(plan),
        Call::Times(length) => {
            ask_settled(plan)?;
            ask(*length >= count, Question::Table)
        }
    }
}

/// The times of all items in a table of so many records.
fn told(heap: Global, plan: &Plan, length: usize) -> Result<Answer, AllocError> {
    let mut lines = plan.lines(heap)?;
    lines.resize(length, UNTOUCHED)?;
    Ok(Answer::Told(lines))
}

/// What the plan answers to a call that no question refuses, and does.
fn grant(heap: Global, plan: &mut Plan, call: Call) -> Result<Answer, AllocError> {
    Ok(match call {
        Call::Enter(activity) => {
            let number = plan.machine.activities.len();
            plan.machine.activities.push(activity)?;
            plan.begin_again()?;
            Answer::Entered(number)
        }
        Call::Join(link) => {
            plan.machine.links.push(link)?;
            plan.begin_again()?;
            Answer::Granted
        }
        Call::Change(number, activity) => {
            plan.machine.change(number, activity);
            plan.begin_again()?;
            Answer::Granted
        }
        Call::Step(number) => {
            let became = plan.step(number);
            Answer::Stepped(became, plan.now().end(number))
        }
        Call::Run(allowance) => Answer::Ran(plan.run(allowance)),
        Call::Times(length) => told(heap, plan, length)?,
        Call::Queue(outlet) => Answer::Bounded(plan.now().bound(outlet)),
    })
}

/// What the plan answers to a call, and does.
pub fn call_plan(heap: Global, plan: &mut Plan, call: Call) -> Result<Answer, AllocError> {
    match ask_call(plan, &call) {
        Ok(()) => grant(heap, plan, call),
        Err(question) => Ok(Answer::Refused(question)),
    }
}

/// A record for a change: the old one with something else in it.
fn altered(seed: &mut Seed, old: Activity) -> Activity {
    let mut new = old;
    // Kept as a number: a draw, and an enum would name what its one arm says.
    match seed.number(0, 14) {
        0..=2 => new.duration = seed.number(1, old.duration),
        3 => new.duration = seed.number(0, old.period),
        4..=5 => new.deadline = seed.number(old.duration, old.period),
        6 => new.deadline = seed.number(0, old.period),
        7 => new.offset = seed.number(0, old.period),
        8 => new.priority = seed.byte(0, 255),
        9 => new.queue = seed.byte(0, 3),
        10 => new.held = seed.number(0, old.duration.saturating_add(1)),
        11 => new.period = seed.number(old.period.saturating_sub(1), old.period),
        12 => new.mark = seed.byte(0, 2),
        13 => new.class = seed.byte(1, 4),
        _ => new.station = seed.byte(0, 7),
    }
    new
}

/// A record for an entry: good, or with a fault.
fn another(seed: &mut Seed, machine: &Machine, old: Activity) -> Activity {
    // Kept as a number: a draw, as above.
    match seed.number(0, 4) {
        0 => old,
        1 => misfit(seed, old),
        2 => stranger(seed, machine, old),
        _ => Activity {
            priority: seed.byte(0, 255),
            ..old
        },
    }
}

fn draw_number(seed: &mut Seed, count: usize) -> usize {
    if seed.once_in(16) {
        count.saturating_add(seed.index(3))
    } else {
        seed.index(count)
    }
}

fn draw_run(seed: &mut Seed, plan: &Plan) -> u64 {
    if seed.once_in(2) {
        plan.enough()
    } else {
        u64::from(seed.number(0, 40))
    }
}

/// A call that is of some interest to the plan as it stands.
pub fn draw_call(seed: &mut Seed, plan: &Plan) -> Call {
    let count = plan.machine.activities.len();
    let number = draw_number(seed, count);
    let known = plan.machine.activities.get(number).copied();
    let activity = known.unwrap_or_default();
    // Kept as a number: a draw, which here makes the enum.
    match seed.number(0, 15) {
        0 => Call::Enter(another(seed, &plan.machine, activity)),
        1 => Call::Join(Link {
            from: draw_number(seed, count),
            to: number,
        }),
        2..=4 => Call::Change(number, altered(seed, activity)),
        5..=8 => Call::Step(number),
        9..=11 => Call::Run(draw_run(seed, plan)),
        12..=13 => Call::Times(
            count
                .saturating_add(seed.index(3))
                .saturating_sub(seed.index(3)),
        ),
        14 => Call::Queue(activity.outlet()),
        _ => Call::Queue(Outlet {
            class: seed.byte(0, 5),
            station: seed.byte(0, 8),
            queue: seed.byte(0, 3),
        }),
    }
}
