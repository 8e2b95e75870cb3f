//! Puts many machines through the tool and through another reckoner, and compares what comes of
//! them. The reckoner uses nothing of the tool, which is called in `tool` alone.
#![tactic(auto)]

mod calls;
mod damage;
mod draw;
mod encode;
mod expected;
mod machine;
mod pairs;
mod question;
mod questions;
mod read;
mod reckon;
mod replay;
mod rounds;
mod seed;
mod sheets;
mod source;
mod spoil;
mod tally;
mod tool;
mod verdict;
mod waits;

use crate::pairs::Trials;
use crate::source::Files;
use std::{fs, io};

const MACHINES: u64 = 20_000;

const SHEETS: u64 = 4000;

fn main(rt: HostRuntime) -> io::Result<()> {
    let mut trials = Trials::new(rt.alloc());
    for number in 0..MACHINES {
        trials.try_pair(number)?;
    }
    for number in 0..SHEETS {
        trials.try_sheet(number)?;
    }
    let cell = fs::read(&rt, "cell.bin")?;
    let process = fs::read(&rt, "process.bin")?;
    trials.try_damage(Files {
        cell: cell.as_slice(),
        process: process.as_slice(),
    })?;
    let tally = trials.tally;
    println!(rt; "{tally}")
}
