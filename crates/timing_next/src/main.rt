//! Reads `cell.bin` and `process.bin` from the current folder and prints the page that they come to:
//! the latest release, wait and end of every item, or that there are no such times, or the first
//! fault.
#![tactic(auto)]

use report::tell::tell;
use std::{fs, io};

// Kept in both programs: no contract says what a file holds, so a function that they shared could promise nothing.
/// What the file holds, and nothing where there is none.
fn read_or_empty(rt: &HostRuntime, path: &str) -> io::Result<Vec<u8>> {
    // By cases: one error becomes an empty file, and another is told first.
    match fs::read(rt, path) {
        Ok(bytes) => Ok(bytes),
        Err(error) if error.kind() == io::ErrorKind::NotFound => Ok(Vec::new(rt.alloc())),
        Err(error) => {
            eprintln!(rt; "timing: {path} cannot be read: {error}")?;
            Err(error)
        }
    }
}

/// Prints the page that two files come to.
fn print_page(rt: &HostRuntime, cell: &[u8], process: &[u8]) -> io::Result<()> {
    let report = tell(cell, process);
    // Told before it is handed on.
    if let Err(error) = println!(rt; "{report}") {
        eprintln!(rt; "timing: the page cannot be printed: {error}")?;
        return Err(error);
    }
    Ok(())
}

fn main(rt: HostRuntime) -> io::Result<()> {
    let cell = read_or_empty(&rt, "cell.bin")?;
    let process = read_or_empty(&rt, "process.bin")?;
    print_page(&rt, &cell, &process)
}
