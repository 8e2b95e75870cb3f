ghost use Rattle.std.specs.Prelude.{◌≡◌, ◌<◌, ◌≤◌, length};
ghost use Rattle.promise.specs.State.{meaning, item_at, times_at};
ghost use Rattle.promise.specs.Steps.{judge as judge_of, by, written, broken_off, found, outcome, stepped};
ghost use Rattle.promise.specs.Calls.{Call, step_ask, step_answer};
ghost use Rattle.promise.specs.Promise.{Leaves};
ghost use Rattle.sheet.specs.Tables.{Fit};

use crate::ask::ask;
use crate::sheet::Sheet;
use crate::table::Table;
use model::rule::Rule;
use model::times::Times;
use promise::outcome::{Became, Cause, Refusal};

/// The times that a step found. They may pass what a table holds, but their sum with a duration fits.
#[derive(Clone, Copy)]
pub(crate) struct Found {
    times: Times,
    ghost late: { times.late ≤ 3000000 },
    ghost wait: { times.wait ≤ 1000001 },
}

impl Table {
    /// What a step that found `new` times in place of the old ones makes of item `i`.
    pub(crate) fn judge(&self, i: usize, new: Found) -> Became
        requires { i < length self.now.items }
        ensures { result ≡ judge_of (item_at self.now i) (times_at self.now i) new.times }
    {
        let new = new.times;
        let mine = self.ask(i).mine();
        if mine.item.mark == 1 && mine.item.offset < new.late {
            Became::Broke(Cause::Input)
        } else if mine.item.deadline < new.late + new.wait + mine.item.duration {
            Became::Broke(Cause::Limit)
        } else if mine.times.late < new.late || mine.times.wait < new.wait {
            Became::Raised
        } else {
            Became::Quiet
        }
    }

    /// Judges the times that a step on item `i` found, and writes them or breaks off.
    fn apply(&mut self, i: usize, new: Found) -> Became
        requires inside { i < length self.old.items }
        requires place { i < 64 }
        ensures answer { result ≡ judge_of (item_at self.old i) (times_at self.old i) new.times }
        ensures state { self.new ≡ by result (written self.old i new.times) (written self.old i new.times) (λ c. broken_off self.old) }
        ensures fit { Fit self.new }
    {
        let became = self.judge(i, new);
        match became {
            Became::Raised | Became::Quiet => self.write(i, new.times),
            Became::Broke(_) => self.break_off(),
        }
        became
    }
}

impl<R: Rule> Sheet<R> {
    /// The times that a step on item `i` finds.
    pub(crate) fn find(&self, i: usize) -> Found
        requires { i < length self.now.table.items }
        ensures { result.times ≡ found (R.Rule.wait self.now.rule) self.now.table i }
    {
        let wait = self.rule.wait(self.table.ask(i));
        let late = self.table.latest(i);
        Found {
            times: Times { late, wait },
        }
    }

    /// A step on item `i`, with no question put.
    // That the rule stays is said of each call: a type cannot speak of before and after.
    pub(crate) fn turn(&mut self, i: usize) -> Became
        requires { i < length self.old.table.items }
        ensures answer { result ≡ outcome (R.Rule.wait self.old.rule) self.old.table i }
        ensures state { self.new.table ≡ stepped (R.Rule.wait self.old.rule) self.old.table i }
        ensures rule { self.new.rule ≡ self.old.rule }
    {
        let new = self.find(i);
        self.table.apply(i, new)
    }

    fn ask_step(&self, number: usize) -> Result<(), Refusal>
        ensures { result ≡ step_ask self.now.table number }
    {
        ask(number < self.table.items().len(), Refusal::NoItem)?;
        ask(!self.table.is_broken(), Refusal::SheetBroken)
    }

    /// Steps one item: what became of it, and its end afterwards.
    pub fn step(&mut self, number: usize) -> Result<(Became, u32), Refusal>
        ensures answer { result ≡ step_answer (meaning R.Rule self.old.rule) self.old.table number }
        ensures leaves { Leaves (meaning R.Rule self.old.rule) self.old.table (Call.step number) self.new.table }
        ensures rule { self.new.rule ≡ self.old.rule }
    {
        self.ask_step(number)?;
        let became = self.turn(number);
        Ok((became, self.table.end(number)))
    }
}
