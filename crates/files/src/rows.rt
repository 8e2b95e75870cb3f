ghost use Rattle.std.specs.Prelude.{◌≡◌, Result};
ghost use Rattle.records.specs.declared.fault.Refusal.{Refusal};
ghost use Rattle.records.specs.Records.{Said, said};
ghost use Rattle.files.specs.Rows.{left_as, rows_of};

use records::fault::{Fault, Refusal, SourceFile};
use records::record::Record;
use records::rows::{Row, Rows};

/// What takes in the records of a file, one after the other. Its view is what they change; beside it
/// stands what none of them changes.
pub(crate) trait Intake {
    ghost Fixed: { Type 0 };

    ghost fixed: { Self → Fixed };

    ghost View: { Type 0 };

    ghost view: { Self → View };

    ghost takes: { Fixed → View → Said → Result View Refusal };

    fn take(&mut self, row: Record<'_>) -> Result<(), Refusal>
        ensures view { left_as result (view self.new) ≡ takes (fixed self.old) (view self.old) (said row.entry) }
        ensures fixed { fixed self.new ≡ fixed self.old };
}

/// Takes in all records of a file, up to the first fault.
pub(crate) fn take_all<I: Intake>(
    intake: &mut I,
    file: SourceFile,
    bytes: &[u8],
) -> Result<(), Fault>
    ensures view { left_as result (I.Intake.view intake.new) ≡ rows_of (I.Intake.takes (I.Intake.fixed intake.old)) file bytes.now (I.Intake.view intake.old) }
    ensures fixed { I.Intake.fixed intake.new ≡ I.Intake.fixed intake.old }
{
    if bytes.len() > 16_384 {
        return Err(Fault {
            refusal: Refusal::TooLong,
            place: 0,
            file,
        });
    }
    for row in Rows::new(file, bytes) {
        let Row { record, place } = row?;
        // Not `map_err`: tried, and what its closure makes of the refusal did not come through to the fault.
        if let Err(refusal) = intake.take(record) {
            return Err(Fault {
                refusal,
                place,
                file,
            });
        }
    }
    Ok(())
}
