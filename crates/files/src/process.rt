ghost use Rattle.std.specs.Prelude.{◌≡◌, ◌≤◌, false, Ok, IfErr};
ghost use Rattle.promise.specs.State.{State, meaning};
ghost use Rattle.promise.specs.Promise.{Promised};
ghost use Rattle.records.specs.Faults.{number_of};
ghost use Rattle.files.specs.Process.{check_of, with_row, sheet_of, or_empty, Makes};
ghost use Rattle.files.specs.Rows.{answer_of};

use crate::rows::{Intake, take_all};
use model::rule::Rule;
use records::fault::{Fault, Refusal, SourceFile};
use records::record::Record;
use sheet::sheet::Sheet;

/// Takes in any record, and keeps nothing.
// It stands for no function: an intake with nothing in it.
#[derive(Drop)]
struct Anything;

impl Intake for Anything {
    ghost Fixed = { Unit {0} };

    ghost fixed = { λ _. tt };

    ghost View = { Unit {0} };

    ghost view = { λ _. tt };

    ghost takes = { λ _ s _. Ok s };

    fn take(&mut self, _row: Record<'_>) -> Result<(), Refusal> {
        Ok(())
    }
}

/// Puts the questions of the file layer to a process file.
pub fn check_process(file: &[u8]) -> Result<(), Fault>
    ensures value { result ≡ check_of file.now }
    ensures own { IfErr result (λ fault. number_of fault.refusal ≤ 7) }
{
    take_all(&mut Anything, SourceFile::Process, file)
}

impl<R: Rule> Intake for Sheet<R> {
    ghost Fixed = { R };

    ghost fixed = { λ s. s.rule };

    ghost View = { State };

    ghost view = { λ s. s.table };

    ghost takes = { λ r. with_row (meaning R.Rule r) };

    fn take(&mut self, row: Record<'_>) -> Result<(), Refusal> {
        match row {
            Record::Station(_) => return Err(Refusal::StrangeKind),
            Record::Item(new) => {
                self.entry(new.item)?;
            }
            Record::Arc(arc) => self.arc(usize::from(arc.from), usize::from(arc.to))?,
        }
        Ok(())
    }
}

/// Makes the sheet that the process file tells of, over a rule: the empty sheet after the file's
/// entries and arcs in order. A refused file makes the empty sheet.
pub fn make_sheet<R: Rule>(rule: R, file: &[u8]) -> (Sheet<R>, Result<(), Fault>)
    ensures state { result.0.table ≡ or_empty (sheet_of (meaning R.Rule rule) file.now) }
    ensures answer { result.1 ≡ answer_of (sheet_of (meaning R.Rule rule) file.now) }
    ensures unbroken { result.0.table.broken ≡ false }
    ensures rule { result.0.rule ≡ rule }
    ensures calls { Makes (meaning R.Rule rule) file.now result.1 result.0.table }
    ensures promise { Promised (meaning R.Rule rule) }
{
    let mut sheet = Sheet::new(rule);
    match take_all(&mut sheet, SourceFile::Process, file) {
        Ok(()) => (sheet, Ok(())),
        Err(fault) => (Sheet::new(sheet.into_rule()), Err(fault)),
    }
}
