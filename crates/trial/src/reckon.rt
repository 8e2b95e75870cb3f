//! The reckoner's verdict on a pair of files.
use crate::machine::{Class, Machine, Outlet};
use crate::read::{Stop, faulty_part, read_files};
use crate::replay::Plan;
use crate::rounds::least_times;
use crate::source::Files;
use crate::verdict::{Ending, Fault, Ran, Verdict};
use std::alloc::{AllocError, Global};

/// A pair of files, reckoned.
#[derive(Drop)]
pub struct Reckoned {
    pub verdict: Verdict,
    pub machine: Machine,
    // Kept apart from the bounds: the tool is asked for the same queues, whatever the verdict is.
    /// Which queues were asked for, in the order of the verdict's bounds.
    pub outlets: Vec<Outlet>,
    // Kept as a flag: what is compared is yes or no, and no value stands beside it.
    /// Do the whole rounds and the single steps agree?
    pub agrees: bool,
}

/// The queues that occur, and one that may not.
fn outlets_of(heap: Global, machine: &Machine) -> Result<Vec<Outlet>, AllocError> {
    let mut outlets = Vec::new(heap);
    outlets.push(Outlet {
        // Kept as a cast: the number of a class is its discriminant.
        class: Class::Bus as u8,
        station: 0,
        queue: 1,
    })?;
    for activity in machine.activities.iter() {
        let outlet = activity.outlet();
        if !outlets.as_slice().contains(&outlet) {
            outlets.push(outlet)?;
        }
    }
    Ok(outlets)
}

/// Do whole rounds from nothing end with the times of the plan, or at a break where it broke?
pub fn rounds_agree(heap: Global, plan: &Plan) -> Result<bool, AllocError> {
    let found = least_times(heap, &plan.machine)?;
    Ok(match found {
        Some(times) => !plan.broken && times == plan.moments,
        None => plan.broken,
    })
}

/// The verdict on a plan that has run so, with the bounds of these queues.
fn judge(heap: Global, plan: &Plan, ran: Ran, outlets: &[Outlet]) -> Result<Verdict, AllocError> {
    if ran.ending != Ending::Settled {
        return Ok(Verdict::Stopped(ran));
    }
    let now = plan.now();
    Ok(Verdict::Settled {
        steps: ran.steps,
        raises: ran.raises,
        lines: plan.lines(heap)?,
        bounds: outlets
            .iter()
            .map(|outlet| now.bound(*outlet))
            .collect(heap)?,
    })
}

fn run_out(heap: Global, machine: Machine) -> Result<Reckoned, AllocError> {
    let outlets = outlets_of(heap, &machine)?;
    let mut plan = Plan::new(heap, machine)?;
    let ran = plan.run(plan.enough());
    let verdict = judge(heap, &plan, ran, outlets.as_slice())?;
    let agrees = rounds_agree(heap, &plan)?;
    let Plan { machine, .. } = plan;
    Ok(Reckoned {
        verdict,
        machine,
        outlets,
        agrees,
    })
}

fn refuse(
    heap: Global,
    files: Files<'_>,
    machine: Machine,
    fault: Fault,
) -> Result<Reckoned, AllocError> {
    let part = faulty_part(heap, files, &fault)?;
    Ok(Reckoned {
        verdict: Verdict::Faulty(fault, part),
        machine,
        outlets: Vec::new(heap),
        agrees: true,
    })
}

pub fn reckon(heap: Global, files: Files<'_>) -> Result<Reckoned, AllocError> {
    let mut machine = Machine::new(heap);
    match read_files(heap, files, &mut machine) {
        Ok(()) => run_out(heap, machine),
        Err(Stop::Faulty(fault)) => refuse(heap, files, machine, fault),
        Err(Stop::OutOfMemory(error)) => Err(error),
    }
}
