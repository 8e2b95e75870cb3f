//! What is compared: the answers of the reckoner and of the tool, in one form.
// Kept beside the tool's own types that are shaped alike: the reckoner uses nothing of the tool.
use crate::question::Question;
use crate::source::Source;
use std::fmt;

#[derive(Clone, Copy, PartialEq)]
pub enum Cause {
    Input,
    Limit,
}

impl fmt::Display for Cause {
    fn fmt<W: fmt::Write>(&self, f: &mut fmt::Formatter<W>) -> fmt::Result {
        let name = match self {
            Cause::Input => "input",
            Cause::Limit => "limit",
        };
        write!(f, "{name}")
    }
}

#[derive(Clone, Copy, PartialEq)]
pub enum Became {
    Raised,
    Quiet,
    Broke(Cause),
}

#[derive(Clone, Copy, PartialEq)]
pub enum Ending {
    Settled,
    Spent,
    Broken(usize, Cause),
}

#[derive(Clone, Copy, PartialEq)]
pub struct Ran {
    pub ending: Ending,
    pub steps: u64,
    pub raises: u64,
}

/// The times of one item.
#[derive(Clone, Copy, PartialEq)]
pub struct Line {
    pub number: usize,
    pub late: u64,
    pub wait: u64,
    pub end: u64,
}

/// The bound of a queue, and the smallest number of an item that reaches it.
#[derive(Clone, Copy, PartialEq)]
pub struct Bound {
    pub bytes: u64,
    pub item: usize,
}

#[derive(Clone, Copy, PartialEq)]
pub struct Fault {
    pub source: Source,
    pub place: usize,
    pub question: Question,
}

/// What becomes of a pair of files.
#[derive(Drop, PartialEq)]
pub enum Verdict {
    /// With the part of the file that the fault is about.
    Faulty(Fault, Vec<u8>),
    /// With the times of all items, and the bounds of the queues that were asked for.
    Settled {
        steps: u64,
        raises: u64,
        lines: Vec<Line>,
        bounds: Vec<Option<Bound>>,
    },
    /// Spent or broken.
    Stopped(Ran),
}

/// What a call on a sheet answers.
#[derive(Drop, PartialEq)]
pub enum Answer {
    Refused(Question),
    Entered(usize),
    Granted,
    Stepped(Became, u64),
    Ran(Ran),
    Told(Vec<Line>),
    Bounded(Option<Bound>),
}
