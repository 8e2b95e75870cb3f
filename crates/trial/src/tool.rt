//! The tool: what it makes of two files, and of calls on one of its sheets.
use crate::calls::Call;
use crate::machine::{Activity, Link, Outlet};
use crate::question::Question;
use crate::source::{Files, Source};
use crate::verdict::{Answer, Became, Bound, Cause, Ending, Fault, Line, Ran, Verdict};
use files::cell::make_bank;
use files::faulty::faulty;
use files::process::make_sheet;
use linked::linked::{Told, ToldTimes, vojemity_tell};
use model::item::Item;
use model::queue::Queue;
use promise::outcome;
use records::fault;
use report::tell::tell;
use rules::all::AllClasses;
use sheet::sheet::Sheet;
use std::alloc::{AllocError, Global};

// Kept beside the reckoner's own such record, `UNTOUCHED`: neither side knows the other's types.
/// What stands in a caller's table before times are written into it.
const BLANK: outcome::Line = outcome::Line {
    number: 77,
    late: 78,
    wait: 79,
    end: 80,
};

/// A sheet of the tool.
#[derive(Drop)]
pub struct ToolSheet {
    sheet: Sheet<AllClasses>,
}

impl From<&Activity> for Item {
    fn from(activity: &Activity) -> Item {
        Item {
            class: activity.class,
            station: activity.station,
            mark: activity.mark,
            priority: activity.priority,
            queue: activity.queue,
            size: activity.size,
            period: activity.period,
            duration: activity.duration,
            held: activity.held,
            offset: activity.offset,
            deadline: activity.deadline,
        }
    }
}

impl From<outcome::Cause> for Cause {
    fn from(cause: outcome::Cause) -> Cause {
        match cause {
            outcome::Cause::Input => Cause::Input,
            outcome::Cause::Limit => Cause::Limit,
        }
    }
}

impl From<outcome::Became> for Became {
    fn from(became: outcome::Became) -> Became {
        match became {
            outcome::Became::Raised => Became::Raised,
            outcome::Became::Quiet => Became::Quiet,
            outcome::Became::Broke(cause) => Became::Broke(Cause::from(cause)),
        }
    }
}

impl From<outcome::Ending> for Ending {
    fn from(ending: outcome::Ending) -> Ending {
        match ending {
            outcome::Ending::Settled => Ending::Settled,
            outcome::Ending::Spent => Ending::Spent,
            outcome::Ending::Broken { item, cause } => Ending::Broken(item, Cause::from(cause)),
        }
    }
}

impl From<outcome::RunResult> for Ran {
    fn from(ran: outcome::RunResult) -> Ran {
        Ran {
            ending: Ending::from(ran.ending),
            steps: ran.steps,
            raises: ran.raises,
        }
    }
}

impl From<outcome::Line> for Line {
    fn from(line: outcome::Line) -> Line {
        Line {
            number: line.number,
            late: u64::from(line.late),
            wait: u64::from(line.wait),
            end: u64::from(line.end),
        }
    }
}

impl From<outcome::QueueBound> for Bound {
    fn from(bound: outcome::QueueBound) -> Bound {
        Bound {
            bytes: bound.bytes,
            item: bound.item,
        }
    }
}

impl From<outcome::Refusal> for Answer {
    fn from(refusal: outcome::Refusal) -> Answer {
        Answer::Refused(Question::from(refusal.number()))
    }
}

impl From<fault::SourceFile> for Source {
    fn from(file: fault::SourceFile) -> Source {
        match file {
            fault::SourceFile::Cell => Source::Cell,
            fault::SourceFile::Process => Source::Process,
        }
    }
}

impl From<fault::Fault> for Fault {
    fn from(fault: fault::Fault) -> Fault {
        Fault {
            source: Source::from(fault.file),
            place: fault.place,
            question: Question::from(fault.refusal.number()),
        }
    }
}

/// What a call answers that is refused or gives something.
fn answered<T, G: FnOnce(T) -> Answer>(answer: Result<T, outcome::Refusal>, granted: G) -> Answer
    requires { G.IsAlwaysCallable granted }
{
    match answer {
        Ok(given) => granted(given),
        Err(refusal) => Answer::from(refusal),
    }
}

impl ToolSheet {
    /// An empty sheet over the bank of a cell file.
    pub fn empty(cell: &[u8]) -> ToolSheet {
        let (bank, _) = make_bank(cell);
        ToolSheet {
            sheet: Sheet::new(bank),
        }
    }

    /// Times written into a table of `length` records; the whole table is told, also where the call
    /// was refused and yet wrote into it.
    fn times(&self, heap: Global, length: usize) -> Result<Answer, AllocError> {
        let mut table = vec![in heap; BLANK; length]?;
        let answer = self.sheet.times(table.as_mut_slice());
        let untouched = table.iter().all(|line| *line == BLANK);
        match answer {
            Err(refusal) if untouched => Ok(Answer::from(refusal)),
            _ => {
                let lines = table.iter().map(|line| Line::from(*line)).collect(heap)?;
                Ok(Answer::Told(lines))
            }
        }
    }

    fn bound(&self, outlet: Outlet) -> Answer {
        let Outlet {
            class,
            station,
            queue,
        } = outlet;
        let queue = Queue {
            class,
            station,
            queue,
        };
        answered(self.sheet.queue_bound(queue), |found| {
            Answer::Bounded(found.map(Bound::from))
        })
    }

    /// What the sheet answers to a call.
    pub fn call(&mut self, heap: Global, call: &Call) -> Result<Answer, AllocError> {
        let sheet = &mut self.sheet;
        Ok(match call {
            Call::Enter(activity) => answered(sheet.entry(Item::from(activity)), Answer::Entered),
            Call::Join(Link { from, to }) => answered(sheet.arc(*from, *to), |()| Answer::Granted),
            Call::Change(number, activity) => {
                let changed = sheet.change(*number, Item::from(activity));
                answered(changed, |()| Answer::Granted)
            }
            Call::Step(number) => answered(sheet.step(*number), |(became, end)| {
                Answer::Stepped(Became::from(became), u64::from(end))
            }),
            Call::Run(allowance) => {
                answered(sheet.run(*allowance), |ran| Answer::Ran(Ran::from(ran)))
            }
            Call::Times(length) => self.times(heap, *length)?,
            Call::Queue(outlet) => self.bound(*outlet),
        })
    }

    /// The allowance that the tool holds to be enough.
    pub fn enough(&self) -> u64 {
        self.sheet.enough()
    }

    /// The times of all items, or none where the sheet refuses them.
    fn lines(&self, heap: Global) -> Result<Vec<Line>, AllocError> {
        match self.times(heap, self.sheet.count())? {
            Answer::Told(lines) => Ok(lines),
            _ => Ok(Vec::new(heap)),
        }
    }

    /// The bounds of these queues, but for those that the sheet refuses.
    fn bounds(&self, heap: Global, outlets: &[Outlet]) -> Result<Vec<Option<Bound>>, AllocError> {
        outlets
            .iter()
            .filter_map(|outlet| match self.bound(*outlet) {
                Answer::Bounded(found) => Some(found),
                _ => None,
            })
            .collect(heap)
    }

    /// What the sheet comes to, with the bounds of these queues.
    fn run_out(&mut self, heap: Global, outlets: &[Outlet]) -> Result<Verdict, AllocError> {
        let ran = match self.sheet.run(self.sheet.enough()) {
            Ok(ran) => Ran::from(ran),
            // Kept as a run of no steps: the reckoner ends none so, and a refusal differs from all.
            Err(_) => Ran {
                ending: Ending::Spent,
                steps: 0,
                raises: 0,
            },
        };
        if ran.ending != Ending::Settled {
            return Ok(Verdict::Stopped(ran));
        }
        Ok(Verdict::Settled {
            steps: ran.steps,
            raises: ran.raises,
            lines: self.lines(heap)?,
            bounds: self.bounds(heap, outlets)?,
        })
    }
}

/// A verdict on faulty files, with the part that the tool hands out.
fn refuse(heap: Global, files: Files<'_>, found: fault::Fault) -> Result<Verdict, AllocError> {
    let part = Vec::from_slice(heap, faulty(files.cell, files.process, &found))?;
    Ok(Verdict::Faulty(Fault::from(found), part))
}

/// The tool's verdict on a pair of files, with the bounds of these queues.
pub fn through_tool(
    heap: Global,
    files: Files<'_>,
    outlets: &[Outlet],
) -> Result<Verdict, AllocError> {
    let (bank, made) = make_bank(files.cell);
    if let Err(found) = made {
        return refuse(heap, files, found);
    }
    let (sheet, filled) = make_sheet(bank, files.process);
    match filled {
        Err(found) => refuse(heap, files, found),
        Ok(()) => ToolSheet { sheet }.run_out(heap, outlets),
    }
}

/// What the tool prints of a pair of files.
pub fn page_by_tool(heap: Global, files: Files<'_>) -> Result<String, AllocError> {
    let report = tell(files.cell, files.process);
    format!(in heap; "{report}")
}

fn same_times(times: &[ToldTimes], lines: &[Line]) -> bool {
    times.iter().zip(lines.iter()).all(|(own, line)| {
        u64::from(own.late) == line.late
            && u64::from(own.wait) == line.wait
            && u64::from(own.end) == line.end
    })
}

/// Does the call that the static library exports tell of a pair of files what this verdict says?
pub fn exported_agrees(files: Files<'_>, verdict: &Verdict) -> bool {
    let none = ToldTimes {
        late: 0,
        wait: 0,
        end: 0,
        limit: 0,
    };
    let mut told = Told {
        outcome: 77,
        count: 77,
        steps: 77,
        times: [none; 64],
    };
    vojemity_tell(files.cell, files.process, &mut told);
    // Kept as numbers: the C interface tells the outcome as one.
    match verdict {
        Verdict::Faulty(_, _) => told.outcome == 2,
        Verdict::Settled { steps, lines, .. } => {
            told.outcome == 0
                && told.steps == *steps
                && told.count == lines.len()
                && same_times(&told.times, lines.as_slice())
        }
        Verdict::Stopped(ran) => told.outcome == 1 && told.steps == ran.steps,
    }
}
