ghost use Rattle.std.specs.Prelude.{◌≡◌};
ghost use Rattle.files.specs.Faulty.{file_of, front_of, faulty_of};

use records::bytes::{cut, from_place};
use records::fault::{Fault, Refusal, SourceFile};

/// Whichever of the two files is meant.
fn pick<'a>(cell: &'a [u8], process: &'a [u8], file: SourceFile) -> &'a [u8]
    ensures { result.now ≡ file_of file cell.now process.now }
{
    match file {
        SourceFile::Cell => cell,
        SourceFile::Process => process,
    }
}

/// The record in front with its head, or all bytes where it is not whole.
fn front<'a>(bytes: &'a [u8]) -> &'a [u8]
    ensures { result.now ≡ front_of bytes.now }
{
    match cut(bytes) {
        Some(raw) => &bytes[0..4 + raw.body.len()],
        None => bytes,
    }
}

/// The faulty record, as a part of whichever of the two files holds it: the rest of the file for a
/// record that is not whole, the empty beginning for a file that is too long, else the record with
/// its head.
pub fn faulty<'a>(cell: &'a [u8], process: &'a [u8], fault: &Fault) -> &'a [u8]
    ensures { result.now ≡ faulty_of fault.now cell.now process.now }
{
    let rest = from_place(pick(cell, process, fault.file), fault.place);
    match fault.refusal {
        Refusal::TooLong => &rest[0..0],
        Refusal::NotWhole => rest,
        _ => front(rest),
    }
}
