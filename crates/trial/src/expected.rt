//! The reckoner's own page of a verdict.
use crate::machine::Machine;
use crate::verdict::{Ending, Line, Verdict};
use std::fmt;

/// What the tool should print of a pair of files.
#[derive(Clone, Copy)]
pub struct Page<'a> {
    pub verdict: &'a Verdict,
    pub machine: &'a Machine,
}

impl Page<'_> {
    fn write_lines<W: fmt::Write>(&self, f: &mut fmt::Formatter<W>, lines: &[Line]) -> fmt::Result {
        writeln!(f, "item late wait end limit")?;
        for (own, line) in self.machine.activities.iter().zip(lines.iter()) {
            let Line {
                late,
                wait,
                end,
                ..
            } = *line;
            let name = own.name.as_str();
            let limit = own.deadline;
            writeln!(f, "{name} {late} {wait} {end} {limit}")?;
        }
        Ok(())
    }

    fn write_ending<W: fmt::Write>(
        &self,
        f: &mut fmt::Formatter<W>,
        ending: Ending,
        steps: u64,
    ) -> fmt::Result {
        match ending {
            Ending::Settled => write!(f, "settled {steps}"),
            Ending::Spent => write!(f, "spent {steps}"),
            Ending::Broken(item, cause) => {
                let own = self.machine.activities.get(item).copied();
                let name = own.unwrap_or_default().name;
                let name = name.as_str();
                write!(f, "broken {name} {cause} {steps}")
            }
        }
    }
}

impl fmt::Display for Page<'_> {
    fn fmt<W: fmt::Write>(&self, f: &mut fmt::Formatter<W>) -> fmt::Result {
        match self.verdict {
            Verdict::Faulty(fault, _) => {
                let file = fault.source;
                let place = fault.place;
                let number = fault.question;
                write!(f, "fault {file} {place} {number}")
            }
            Verdict::Settled { steps, lines, .. } => {
                self.write_lines(f, lines.as_slice())?;
                self.write_ending(f, Ending::Settled, *steps)
            }
            Verdict::Stopped(ran) => self.write_ending(f, ran.ending, ran.steps),
        }
    }
}
