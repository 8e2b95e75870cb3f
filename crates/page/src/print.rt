ghost use Rattle.std.specs.Prelude.{◌≡◌, Some};
ghost use Rattle.page.specs.Rows.{row_as, rows_in};
ghost use Rattle.page.specs.Reports.{told};
ghost use Rattle.page.specs.Texts.{row_text, table_text, page_text};

use crate::page::{Outcome, Report, Row, Rows};
use std::fmt;

impl<'a> fmt::Display for Row<'a> {
    ghost output = { λ r. Some (row_text (row_as r)) };

    fn fmt<W: fmt::Write>(&self, f: &mut fmt::Formatter<W>) -> fmt::Result {
        let Row {
            name,
            late,
            wait,
            end,
            limit,
        } = self;
        write!(f, "{name} {late} {wait} {end} {limit}")
    }
}

impl<'a> fmt::Display for Rows<'a> {
    ghost output = { λ p. Some (table_text (rows_in p)) };

    fn fmt<W: fmt::Write>(&self, f: &mut fmt::Formatter<W>) -> fmt::Result {
        writeln!(f, "item late wait end limit")?;
        for row in self.as_slice() {
            writeln!(f, "{row}")?;
        }
        Ok(())
    }
}

impl<'a> fmt::Display for Report<'a> {
    ghost output = { λ r. Some (page_text (told r)) };

    fn fmt<W: fmt::Write>(&self, f: &mut fmt::Formatter<W>) -> fmt::Result {
        match self.outcome {
            Outcome::Settled { steps } => write!(f, "{}settled {steps}", self.rows),
            Outcome::Broken { name, cause, steps } => write!(f, "broken {name} {cause} {steps}"),
            Outcome::Refused(fault) => write!(f, "{fault}"),
        }
    }
}
