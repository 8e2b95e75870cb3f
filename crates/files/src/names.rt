ghost use Rattle.std.specs.Prelude.{◌≡◌, ℕ, ◌<◌, [], map, slice_index_or};
ghost use Rattle.std.specs.Iterator.{YieldsFirstBy, item_count};
ghost use Rattle.std.specs.Option.{option_map};
ghost use Rattle.records.specs.Rows.{row_as};
ghost use Rattle.files.specs.Names.{name_of, names_left};
ghost use Rattle.files.specs.Process.{names_of};

use records::fault::{Fault, SourceFile};
use records::record::Record;
use records::rows::{Row, Rows};

/// The name that stands in a record, if it is an item's.
fn name_in<'a>(row: Result<Row<'a>, Fault>) -> Option<&'a str>
    ensures { option_map (λ name. name.now) result ≡ name_of (row_as row.entry) }
{
    match row {
        Ok(
            Row {
                record: Record::Item(new),
                ..
            },
        ) => Some(new.name),
        _ => None,
    }
}

/// The names of the items of a file, in order.
#[derive(Drop)]
struct ItemNames<'a> {
    rows: Rows<'a>,
}

impl<'a> Iterator for ItemNames<'a> {
    type Item = &'a str;

    ghost next_gives = { YieldsFirstBy (λ name. name.now) names_left };

    ghost remaining = { item_count names_left };

    fn next(&mut self) -> Option<&'a str> {
        // A loop: of `find_map` and `filter_map` a proof learns what they give by a function of the row,
        // and a name is a reference, of which a row's view tells the text alone.
        while let Some(row) = self.rows.next() {
            if let Some(name) = name_in(row) {
                return Some(name);
            }
        }
        None
    }
}

/// The names of the items of a process file, in order; the first 64 of them, as a sheet has no more.
pub fn names<'a>(file: &'a [u8]) -> [&'a str; 64]
    ensures { (i : ℕ) → i < 64 → slice_index_or (map (λ n. n.now) result) i [] ≡ slice_index_or (names_of file.now) i [] }
{
    // An array: a sheet has room for 64 items, and nothing is allocated.
    let mut names = [""; 64];
    let all = ItemNames {
        rows: Rows::new(SourceFile::Process, file),
    };
    for (place, name) in all.take(64).enumerate() {
        names[place] = name;
    }
    names
}
