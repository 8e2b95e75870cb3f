ghost use Rattle.std.specs.Prelude.{◌≡◌, ℕ, ◌<◌, length, slice_index_or};
ghost use Rattle.promise.specs.State.{meaning, item_at};
ghost use Rattle.promise.specs.Calls.{no_line, line_at};
ghost use Rattle.promise.specs.Promise.{enough as enough_of, IsSettled};
ghost use Rattle.promise.specs.Runs.{run_of};
ghost use Rattle.files.specs.Process.{sheet_of, or_empty, names_of};
ghost use Rattle.page.specs.Pages.{rows_to};
ghost use Rattle.page.specs.Reports.{told};
ghost use Rattle.page.specs.Rows.{rows_in};
ghost use Rattle.report.specs.Pages.{row_of, ran, over_of, means, cell_means, after, report_of};
ghost use Rattle.report.specs.Truth.{Truth};
ghost use Rattle.report.specs.Verdicts.{Reached, Verdict};

use files::cell::make_bank;
use files::names::names;
use files::process::make_sheet;
use model::rule::Rule;
use page::page::{Report, Row, Rows};
use promise::outcome::{Ending, Line, RunResult};
use records::fault::Fault;
use rules::all::AllClasses;
use sheet::sheet::Sheet;

/// The deadline of an item, or 0 where no item has this number.
fn limit<R: Rule>(sheet: &Sheet<R>, number: usize) -> u32
    ensures { result ≡ (item_at sheet.now.table number).deadline }
{
    sheet.item(number).map_or(0, |item| item.deadline)
}

/// The lines of a settled sheet, in front.
fn lines<R: Rule>(sheet: &Sheet<R>) -> [Line; 64]
    requires settled { IsSettled (meaning R.Rule sheet.now.rule) sheet.now.table }
    ensures { (i : ℕ) → i < length sheet.now.table.items → slice_index_or result i no_line ≡ line_at sheet.now.table i }
{
    // An array: `times` writes into its caller's table, and nothing is allocated.
    let mut lines = [Line::default(); 64];
    sheet.times(&mut lines).unwrap();
    lines
}

/// The rows of a settled sheet whose items have their names in a process file.
fn rows<'a, R: Rule>(sheet: &Sheet<R>, process: &'a [u8]) -> Rows<'a>
    requires settled { IsSettled (meaning R.Rule sheet.now.rule) sheet.now.table }
    ensures { rows_in result ≡ rows_to (row_of (names_of process.now) sheet.now.table) (length sheet.now.table.items) }
{
    let lines = lines(sheet);
    let names = names(process);
    let count = sheet.count();
    // An array and a loop by number: what is gathered in another way is copied into an array once more.
    let mut rows = [Row::default(); 64];
    for i in 0..count {
        rows[i] = Row::new(names[i], lines[i], limit(sheet, i));
    }
    Rows::new(rows, count)
}

/// An allowance that always decides.
fn allowance<R: Rule>(sheet: &Sheet<R>) -> u64
    ensures { result ≡ enough_of sheet.now.table }
{
    sheet.enough()
}

/// Runs a sheet until it is settled or broken.
fn decide<R: Rule>(sheet: &mut Sheet<R>) -> RunResult
    requires { Reached (meaning R.Rule sheet.old.rule) sheet.old.table }
    ensures verdict { Verdict (meaning R.Rule sheet.old.rule) sheet.old.table result sheet.new.table }
    ensures rule { sheet.new.rule ≡ sheet.old.rule }
{
    let steps = allowance(sheet);
    sheet.run(steps).unwrap()
}

/// What a sheet comes to whose items have their names in a process file.
fn judge<'a, R: Rule>(sheet: &mut Sheet<R>, process: &'a [u8]) -> Report<'a>
    requires { Reached (meaning R.Rule sheet.old.rule) sheet.old.table }
    ensures page { told result ≡ ran (names_of process.now) (run_of (R.Rule.wait sheet.old.rule) sheet.old.table (enough_of sheet.old.table)) }
    ensures truth { Truth (meaning R.Rule sheet.old.rule) sheet.old.table (told result) }
{
    let RunResult {
        ending,
        steps,
        raises: _,
    } = decide(sheet);
    match ending {
        Ending::Settled => Report::settled(rows(sheet, process), steps),
        Ending::Broken { item, cause } => Report::broken(names(process)[item], cause, steps),
        Ending::Spent => unreachable(),
    }
}

/// What a process file comes to over a rule.
pub fn tell_over<'a, R: Rule + Drop>(rule: R, process: &'a [u8]) -> Report<'a>
    ensures page { told result ≡ over_of (meaning R.Rule rule) process.now }
    ensures truth { Truth (meaning R.Rule rule) (or_empty (sheet_of (meaning R.Rule rule) process.now)) (told result) }
{
    let (mut sheet, made) = make_sheet(rule, process);
    match made {
        Ok(()) => judge(&mut sheet, process),
        Err(fault) => Report::refused(fault),
    }
}

/// What the process file comes to after a cell file that was answered so.
fn tell_after<'a>(bank: AllClasses, cell: Result<(), Fault>, process: &'a [u8]) -> Report<'a>
    ensures page { told result ≡ after cell (over_of (means bank) process.now) }
    ensures truth { Truth (means bank) (or_empty (sheet_of (means bank) process.now)) (told result) }
{
    // A fault in the cell file goes first, so it is the way out.
    if let Err(fault) = cell {
        return Report::refused(fault);
    }
    tell_over(bank, process)
}

/// What a cell file and a process file come to. A fault in the cell file goes first.
pub fn tell<'a>(cell: &[u8], process: &'a [u8]) -> Report<'a>
    ensures page { told result ≡ report_of cell.now process.now }
    ensures truth { Truth (cell_means cell.now) (or_empty (sheet_of (cell_means cell.now) process.now)) (told result) }
{
    let (bank, made) = make_bank(cell);
    tell_after(bank, made, process)
}
