ghost use Rattle.std.specs.Prelude.{◌≡◌};
ghost use Rattle.std.specs.Iterator.{YieldsFirstBy, item_count};
ghost use Rattle.records.specs.Rows.{row_as, rows_in, rows_left};

use crate::bytes::from_place;
use crate::fault::{Fault, SourceFile};
use crate::record::{Record, first_record};

/// A record with its place: the byte offset of its length in the file.
#[derive(Clone, Copy)]
// Not the row of a page: one name, two things.
pub struct Row<'a> {
    pub record: Record<'a>,
    pub place: usize,
}

/// The records of a file, in order. One that is refused for itself comes last, as a fault.
#[derive(Drop)]
pub struct Rows<'a> {
    file: SourceFile,
    bytes: &'a [u8],
    place: usize,
}

impl<'a> Rows<'a> {
    /// The records of a file with these bytes.
    pub fn new(file: SourceFile, bytes: &'a [u8]) -> Rows<'a>
        ensures { rows_left result ≡ rows_in file 0 0 bytes.now }
    {
        Rows {
            file,
            bytes,
            place: 0,
        }
    }
}

impl<'a> Iterator for Rows<'a> {
    type Item = Result<Row<'a>, Fault>;

    ghost next_gives = { YieldsFirstBy row_as rows_left };

    ghost remaining = { item_count rows_left };

    // Inlined, as `first_record`.
    #[inline(always)]
    fn next(&mut self) -> Option<Result<Row<'a>, Fault>> {
        let place = self.place;
        let rest = from_place(self.bytes, self.place);
        if rest.is_empty() {
            return None;
        }
        match first_record(self.file, rest) {
            Ok((record, length)) => {
                self.place += length;
                Some(Ok(Row { record, place }))
            }
            Err(refusal) => {
                self.place = self.bytes.len();
                Some(Err(Fault {
                    refusal,
                    place,
                    file: self.file,
                }))
            }
        }
    }
}
