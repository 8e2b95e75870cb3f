ghost use Rattle.promise.specs.Promise.{Kept};
ghost use Rattle.flat.specs.Flatly.{flatly};

use crate::flat::Flat;
use model::item::Item;
use sheet::sheet::Sheet;

/// A sheet with one item, run. A client has the promise of its own sheet from the contracts of the
/// calls that it made.
pub fn alone(rule: Flat, item: Item, allowance: u64) -> Sheet<Flat>
    ensures { Kept (flatly rule.stretch) result.table }
{
    let mut sheet = Sheet::new(rule);
    let _ = sheet.entry(item);
    let _ = sheet.run(allowance);
    sheet
}
