ghost use Rattle.std.specs.Prelude.{◌≡◌, Some};
ghost use Rattle.promise.specs.Refusals.{number_of};
ghost use Rattle.promise.specs.Causes.{cause_text};

use std::fmt;

/// Why a call was refused: the first condition that does not hold.
#[derive(Clone, Copy, Debug, PartialEq, Eq)]
pub enum Refusal {
    /// 64 items are entered already.
    ManyItems = 8,
    /// The period is 0 or above 1,000,000.
    BadPeriod = 9,
    /// The duration is 0 or above the deadline, or the deadline above the period.
    BadLimits = 10,
    /// The mark is above 1, held above the duration, or the offset not within the period.
    BadStart = 11,
    /// Another item of the class and station has this priority.
    TakenPriority = 12,
    /// The rule does not take the record.
    NotAdmitted = 13,
    /// No item has this number.
    NoItem = 14,
    /// A change would alter class, station, mark or period.
    FixedFields = 15,
    /// The arc does not lead to a larger number, or the two periods differ.
    BadArc = 16,
    /// The arc is there already.
    KnownArc = 17,
    /// 128 arcs are there already.
    ManyArcs = 18,
    /// The sheet is broken.
    SheetBroken = 19,
    /// A step on some item would not be quiet.
    NotSettled = 20,
    /// The caller's table has fewer records than there are items.
    ShortTable = 21,
}

impl Refusal {
    /// The number of the question, by which a fault is printed.
    pub fn number(self) -> u8
        ensures { result ≡ number_of self }
    {
        // Cast: the discriminant is the number.
        self as u8
    }
}

/// Why a step breaks the sheet.
#[derive(Clone, Copy, Debug, PartialEq, Eq)]
pub enum Cause {
    /// An item with mark 1 would be released after its offset.
    Input,
    /// An item would end after its deadline.
    Limit,
}

impl fmt::Display for Cause {
    ghost output = { λ c. Some (cause_text c) };

    fn fmt<W: fmt::Write>(&self, f: &mut fmt::Formatter<W>) -> fmt::Result {
        f.write_str(match self {
            Cause::Input => "input",
            Cause::Limit => "limit",
        })
    }
}

/// What became of an item by a step.
#[derive(Clone, Copy, Debug, PartialEq, Eq)]
pub enum Became {
    Raised,
    Quiet,
    Broke(Cause),
}

/// How a run ended.
#[derive(Clone, Copy, Debug, PartialEq, Eq)]
pub enum Ending {
    Settled,
    Spent,
    Broken { item: usize, cause: Cause },
}

/// What a run made.
#[derive(Clone, Copy, Debug, PartialEq, Eq)]
pub struct RunResult {
    pub ending: Ending,
    /// The steps made; one that breaks the sheet counts.
    pub steps: u64,
    /// The steps that raised a time.
    pub raises: u64,
}

/// The times of one item.
#[derive(Clone, Copy, Debug, Default, PartialEq, Eq)]
pub struct Line {
    pub number: usize,
    pub late: u32,
    pub wait: u32,
    pub end: u32,
}

/// The largest load of a queue, and the item with the smallest number that reaches it.
#[derive(Clone, Copy, Debug, PartialEq, Eq)]
pub struct QueueBound {
    pub bytes: u64,
    pub item: usize,
}
