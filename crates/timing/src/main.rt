//! Reads `cell.bin` and `process.bin` from the current folder, puts the questions of the file layer
//! to both, and prints what they hold, or the first fault.
#![tactic(auto)]

mod listing;

use crate::listing::{Counts, list};
use files::cell::make_bank;
use files::process::check_process;
use records::fault::SourceFile;
use std::{fs, io};

// Kept in both programs: no contract says what a file holds, so a function that they shared could promise nothing.
/// What the file holds, and nothing where there is none.
fn read_or_empty(rt: &HostRuntime, path: &str) -> io::Result<Vec<u8>> {
    // By cases: one error becomes an empty file, and another is told first.
    match fs::read(rt, path) {
        Ok(bytes) => Ok(bytes),
        Err(error) if error.kind() == io::ErrorKind::NotFound => Ok(Vec::new(rt.alloc())),
        Err(error) => {
            eprintln!(rt; "timing: {path} cannot be read: {error}")?;
            Err(error)
        }
    }
}

/// Prints what the two files hold, or the first fault; one in the cell file goes first.
fn tell(rt: &HostRuntime, cell: &[u8], process: &[u8]) -> io::Result<()> {
    let (bank, made) = make_bank(cell);
    // Printed and not handed on: a fault is what the program has to say.
    if let Err(fault) = made {
        return println!(rt; "{fault}");
    }
    if let Err(fault) = check_process(process) {
        return println!(rt; "{fault}");
    }
    let mut counts = Counts::default();
    list(rt, &bank, &mut counts, SourceFile::Cell, cell)?;
    list(rt, &bank, &mut counts, SourceFile::Process, process)?;
    println!(rt;
        "{} stations, {} items, {} arcs",
        counts.stations, counts.items, counts.arcs
    )
}

fn main(rt: HostRuntime) -> io::Result<()> {
    let cell = read_or_empty(&rt, "cell.bin")?;
    let process = read_or_empty(&rt, "process.bin")?;
    tell(&rt, &cell, &process)
}
