ghost use Rattle.std.specs.Prelude.{◌≡◌, ◌≤◌, min, length, map, take};
ghost use Rattle.page.specs.Pages.{settled as settled_page, broken as broken_page, refused as refused_page};
ghost use Rattle.page.specs.Reports.{told};
ghost use Rattle.page.specs.Rows.{row_as, row_with, rows_in};

use arrayvec::ArrayVec;
use promise::outcome::{Cause, Line};
use records::fault::Fault;

/// The row of one item.
#[derive(Clone, Copy, Default)]
pub struct Row<'a> {
    pub name: &'a str,
    pub late: u32,
    pub wait: u32,
    pub end: u32,
    pub limit: u32,
}

impl<'a> Row<'a> {
    /// The row of an item with this name, these times and this deadline.
    pub fn new(name: &'a str, line: Line, limit: u32) -> Row<'a>
        ensures { row_as result ≡ row_with name.now line limit }
    {
        Row {
            name,
            late: line.late,
            wait: line.wait,
            end: line.end,
            limit,
        }
    }
}

/// The items of a settled sheet in rows; there is room for 64.
// An array and a count: a page is `Copy`, and a vector of fixed room is not.
#[derive(Clone, Copy)]
pub struct Rows<'a> {
    rows: [Row<'a>; 64],
    count: usize,
}

impl<'a> From<ArrayVec<Row<'a>, 64>> for Rows<'a> {
    ghost from_gives = { λ vec rows. rows_in rows ≡ map row_as vec.items };

    fn from(vec: ArrayVec<Row<'a>, 64>) -> Self {
        let count = vec.len();
        let mut rows = [Row::default(); 64];
        rows[..count].copy_from_slice(&vec);
        Rows::new(rows, count)
    }
}

impl<'a> Rows<'a> {
    /// The first `count` of these rows, or all where there are not so many.
    #[inline(always)]
    pub fn new(rows: [Row<'a>; 64], count: usize) -> Rows<'a>
        ensures { rows_in result ≡ map row_as (take (min count 64) rows.entry) }
    {
        Rows { rows, count }
    }

    /// No row.
    #[inline(always)]
    fn none() -> Rows<'a> {
        Rows {
            rows: [Row::default(); 64],
            count: 0,
        }
    }

    /// The rows, from the first to the last.
    pub fn as_slice(&self) -> &[Row<'a>]
        ensures rows { map row_as result.now ≡ rows_in self.now }
        ensures few { length (rows_in self.now) ≤ 64 }
    {
        &self.rows[..self.count.min(64)]
    }
}

/// How it came out.
#[derive(Clone, Copy)]
pub enum Outcome<'a> {
    Settled {
        steps: u64,
    },
    /// The name of the item at which the run broke, and why.
    Broken {
        name: &'a str,
        cause: Cause,
        steps: u64,
    },
    /// A question was answered with no.
    Refused(Fault),
}

/// What two files come to.
// The rows stand beside the outcome and not in its case: a report is `Copy`, so they are an array, and
// an array whose type names a lifetime may stand in no variant.
#[derive(Clone, Copy)]
pub struct Report<'a> {
    pub outcome: Outcome<'a>,
    /// None unless the outcome is settled.
    pub rows: Rows<'a>,
}

// Inlined: a report is large, and a call that hands it out fills it twice.
impl<'a> Report<'a> {
    #[inline(always)]
    pub fn settled(rows: Rows<'a>, steps: u64) -> Report<'a>
        ensures { told result ≡ settled_page (rows_in rows.entry) steps }
    {
        Report {
            outcome: Outcome::Settled { steps },
            rows,
        }
    }

    #[inline(always)]
    pub fn broken(name: &'a str, cause: Cause, steps: u64) -> Report<'a>
        ensures { told result ≡ broken_page name.now cause steps }
    {
        Report {
            outcome: Outcome::Broken { name, cause, steps },
            rows: Rows::none(),
        }
    }

    #[inline(always)]
    pub fn refused(fault: Fault) -> Report<'a>
        ensures { told result ≡ refused_page fault }
    {
        Report {
            outcome: Outcome::Refused(fault),
            rows: Rows::none(),
        }
    }
}
