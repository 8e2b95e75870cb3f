ghost use Rattle.std.specs.Prelude.{◌≡◌, ◌≤◌, length};
ghost use Rattle.promise.specs.State.{meaning, empty};
ghost use Rattle.promise.specs.Promise.{Promised};
ghost use Rattle.sheet.specs.Tables.{Fit};

use crate::table::Table;
use model::rule::Rule;

/// A sheet: items and arcs entered one by one, and times worked out from them over one rule, which
/// never changes.
#[derive(Drop)]
pub struct Sheet<R: Rule> {
    pub(crate) rule: R,
    pub(crate) table: Table,
    ghost few: { length table.items ≤ 64 },
    ghost fit: { Fit table },
}

impl<R: Rule> Sheet<R> {
    /// A sheet made empty and unbroken over a rule. Whatever calls follow, the promise holds.
    pub fn new(rule: R) -> Sheet<R>
        ensures promise { Promised (meaning R.Rule rule) }
        ensures state { result.table ≡ empty }
        ensures rule { result.rule ≡ rule }
    {
        Sheet {
            rule,
            table: Table::empty(),
        }
    }

    /// Gives the rule back, and the sheet up.
    pub fn into_rule(self) -> R
        ensures { result ≡ self.rule }
    {
        let Sheet { rule, table: _ } = self;
        rule
    }
}
