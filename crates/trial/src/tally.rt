//! What was tried, and what differed.
use crate::question::Question;
use crate::verdict::{Answer, Cause, Ending, Verdict};
use std::alloc::{AllocError, Global};
use std::collections::BTreeMap;
use std::fmt;

/// What can differ.
#[derive(Clone, Copy)]
pub enum Matter {
    /// The verdict on a pair of files.
    Files,
    /// The page printed of it.
    Pages,
    /// What the call that the static library exports tells of it.
    Exported,
    /// The answer to a call on a sheet.
    Calls,
    /// The reckoner's rounds and its single steps.
    Rounds,
}

impl fmt::Display for Matter {
    fn fmt<W: fmt::Write>(&self, f: &mut fmt::Formatter<W>) -> fmt::Result {
        let name = match self {
            Matter::Files => "files",
            Matter::Pages => "pages",
            Matter::Exported => "exported",
            Matter::Calls => "calls",
            Matter::Rounds => "rounds",
        };
        write!(f, "{name}")
    }
}

#[derive(Clone, Copy)]
struct Difference {
    seed: u64,
    matter: Matter,
}

/// How often each question was answered with no.
#[derive(Drop)]
struct Refusals {
    counts: BTreeMap<Question, u64>,
}

#[derive(Drop)]
pub struct Tally {
    pairs: u64,
    settled: u64,
    spent: u64,
    broken_by_input: u64,
    broken_by_limit: u64,
    times: u64,
    bounds: u64,
    refusals: Refusals,
    sheets: u64,
    calls: u64,
    refused_calls: Refusals,
    differ: u64,
    first: Vec<Difference>,
}

// Kept as counts by hand: they go over many calls, so no loop or iterator counts them.
fn more(count: &mut u64) {
    *count = count.saturating_add(1);
}

impl Refusals {
    fn none(heap: Global) -> Refusals {
        Refusals {
            counts: BTreeMap::new(heap),
        }
    }

    fn note(&mut self, question: Question) -> Result<(), AllocError> {
        more(self.counts.entry(question)?.or_insert(0));
        Ok(())
    }

    fn write<W: fmt::Write>(&self, f: &mut fmt::Formatter<W>, what: &str) -> fmt::Result {
        for (question, count) in self.counts.iter() {
            writeln!(f, "{what} {question}: {count}")?;
        }
        Ok(())
    }
}

impl Tally {
    pub fn new(heap: Global) -> Tally {
        Tally {
            pairs: 0,
            settled: 0,
            spent: 0,
            broken_by_input: 0,
            broken_by_limit: 0,
            times: 0,
            bounds: 0,
            refusals: Refusals::none(heap),
            sheets: 0,
            calls: 0,
            refused_calls: Refusals::none(heap),
            differ: 0,
            first: Vec::new(heap),
        }
    }

    fn note_ending(&mut self, ending: Ending) {
        let count = match ending {
            Ending::Settled => &mut self.settled,
            Ending::Spent => &mut self.spent,
            Ending::Broken(_, Cause::Input) => &mut self.broken_by_input,
            Ending::Broken(_, Cause::Limit) => &mut self.broken_by_limit,
        };
        more(count);
    }

    pub fn note_verdict(&mut self, verdict: &Verdict) -> Result<(), AllocError> {
        more(&mut self.pairs);
        match verdict {
            Verdict::Faulty(fault, _) => self.refusals.note(fault.question)?,
            Verdict::Settled { lines, bounds, .. } => {
                // Kept as casts: no `From` leads from usize to u64.
                self.times = self.times.saturating_add(lines.len() as u64);
                self.bounds = self.bounds.saturating_add(bounds.len() as u64);
                self.note_ending(Ending::Settled);
            }
            Verdict::Stopped(ran) => self.note_ending(ran.ending),
        }
        Ok(())
    }

    pub fn note_sheet(&mut self) {
        more(&mut self.sheets);
    }

    pub fn note_answer(&mut self, answer: &Answer) -> Result<(), AllocError> {
        more(&mut self.calls);
        match answer {
            Answer::Refused(question) => self.refused_calls.note(*question),
            _ => Ok(()),
        }
    }

    /// Counts a difference where there is one, and keeps the first few with the seeds that lead to
    /// them.
    pub fn note(&mut self, alike: bool, seed: u64, matter: Matter) -> Result<(), AllocError> {
        if !alike {
            more(&mut self.differ);
            if self.first.len() < 10 {
                self.first.push(Difference { seed, matter })?;
            }
        }
        Ok(())
    }
}

impl fmt::Display for Tally {
    fn fmt<W: fmt::Write>(&self, f: &mut fmt::Formatter<W>) -> fmt::Result {
        writeln!(f, "pairs of files {}", self.pairs)?;
        writeln!(f, "settled {}", self.settled)?;
        writeln!(f, "spent {}", self.spent)?;
        writeln!(f, "broken by input {}", self.broken_by_input)?;
        writeln!(f, "broken by limit {}", self.broken_by_limit)?;
        writeln!(f, "times {}", self.times)?;
        writeln!(f, "queue bounds {}", self.bounds)?;
        self.refusals.write(f, "refusal")?;
        writeln!(f, "sheets {}", self.sheets)?;
        writeln!(f, "calls {}", self.calls)?;
        self.refused_calls.write(f, "refused call")?;
        for Difference { seed, matter } in self.first.iter() {
            writeln!(f, "difference in {matter} at seed {seed}")?;
        }
        write!(f, "differ {}", self.differ)
    }
}
