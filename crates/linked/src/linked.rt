ghost use Rattle.std.specs.Prelude.{◌≡◌, map, length, take};
ghost use Rattle.page.specs.Reports.{told as told_by};
ghost use Rattle.page.specs.Rows.{row_as, rows_in};
ghost use Rattle.report.specs.Pages.{report_of};
ghost use Rattle.linked.specs.Linked.{times_of, Tells};

use page::page::{Outcome, Report, Row, Rows};
use report::tell::tell;

/// The times of one item, and its deadline.
#[repr(C)]
#[derive(Clone, Copy)]
pub struct ToldTimes {
    pub late: u32,
    pub wait: u32,
    pub end: u32,
    pub limit: u32,
}

/// What a caller is told of the page that two files come to.
// Kept as a number, and a count beside the table: callers in C read them so.
#[repr(C)]
#[derive(Drop)]
pub struct Told {
    /// 0: settled; 1: broken; 2: refused.
    pub outcome: u32,
    /// How many items have times in the table, from the front; 0 unless settled.
    pub count: usize,
    /// The steps made; 0 where refused.
    pub steps: u64,
    pub times: [ToldTimes; 64],
}

impl From<&Row<'_>> for ToldTimes {
    ghost from_gives = { λ row times. times ≡ times_of (row_as row.now) };

    fn from(row: &Row<'_>) -> Self {
        ToldTimes {
            late: row.late,
            wait: row.wait,
            end: row.end,
            limit: row.limit,
        }
    }
}

/// Writes the times of the rows from the front on, and tells how many there are.
fn fill(page: &Rows<'_>, times: &mut [ToldTimes; 64]) -> usize
    ensures count { result ≡ length (rows_in page.now) }
    ensures times { take result times.new ≡ map times_of (rows_in page.now) }
{
    let rows = page.as_slice();
    // Not a zip with `iter_mut`: of the values behind one in a chain a proof learns nothing.
    for (i, row) in rows.iter().enumerate() {
        times[i] = ToldTimes::from(row);
    }
    rows.len()
}

fn write(report: &Report<'_>, told: &mut Told)
    ensures { Tells told.new (told_by report.now) }
{
    match report.outcome {
        Outcome::Settled { steps } => {
            told.outcome = 0;
            told.count = fill(&report.rows, &mut told.times);
            told.steps = steps;
        }
        Outcome::Broken {
            name: _,
            cause: _,
            steps,
        } => {
            told.outcome = 1;
            told.count = 0;
            told.steps = steps;
        }
        Outcome::Refused(_) => {
            told.outcome = 2;
            told.count = 0;
            told.steps = 0;
        }
    }
}

/// Tells what a cell file and a process file come to.
pub fn vojemity_tell(cell: &[u8], process: &[u8], told: &mut Told)
    ensures { Tells told.new (report_of cell.now process.now) }
{
    write(&tell(cell, process), told);
}
