ghost use Rattle.std.specs.Prelude.{◌≡◌, ℕ, ◌<◌, ◌≤◌, length, drop, MatchOption, slice_index_or};
ghost use Rattle.model.specs.Items.{is_there};
ghost use Rattle.promise.specs.State.{meaning, item_at};
ghost use Rattle.promise.specs.Steps.{outcome, is_quiet};
ghost use Rattle.promise.specs.Calls.{Call, Rows, no_line, all_quiet, settled_ask, times_answer, line_at, larger as larger_of, bound_to, bound_answer};
ghost use Rattle.promise.specs.Promise.{Leaves, enough as enough_of};
ghost use Rattle.sheet.specs.Tables.{Fit};

use crate::ask::ask;
use crate::sheet::Sheet;
use model::item::Item;
use model::queue::Queue;
use model::rule::Rule;
use promise::outcome::{Became, Line, QueueBound, Refusal};

/// The bound with one load more; the item with the smaller number keeps an equal load.
fn larger(bound: Option<QueueBound>, load: u64, item: usize) -> Option<QueueBound>
    ensures { result ≡ larger_of bound load item }
{
    match bound {
        Some(old) if old.bytes >= load => Some(old),
        _ => Some(QueueBound { bytes: load, item }),
    }
}

impl<R: Rule> Sheet<R> {
    /// Would a step on item `i` be quiet?
    fn is_quiet(&self, i: usize) -> bool
        requires { i < length self.now.table.items }
        ensures { result ≡ is_quiet (outcome (R.Rule.wait self.now.rule) self.now.table i) }
    {
        self.table.judge(i, self.find(i)) == Became::Quiet
    }

    /// Would a step on any item be quiet?
    fn all_quiet(&self) -> bool
        ensures { result ≡ all_quiet (meaning R.Rule self.now.rule) self.now.table }
    {
        (0..self.count()).all(|i| self.is_quiet(i))
    }

    fn ask_settled(&self) -> Result<(), Refusal>
        ensures { result ≡ settled_ask (meaning R.Rule self.now.rule) self.now.table }
    {
        ask(!self.table.is_broken(), Refusal::SheetBroken)?;
        ask(self.all_quiet(), Refusal::NotSettled)
    }

    fn ask_times(&self, rows: usize) -> Result<(), Refusal>
        ensures { result ≡ times_answer (meaning R.Rule self.now.rule) self.now.table rows }
    {
        self.ask_settled()?;
        ask(self.count() <= rows, Refusal::ShortTable)
    }

    fn line(&self, i: usize) -> Line
        requires { i < length self.now.table.items }
        ensures { result ≡ line_at self.now.table i }
    {
        let times = self.table.ask(i).mine().times;
        Line {
            number: i,
            late: times.late,
            wait: times.wait,
            end: self.table.end(i),
        }
    }

    /// The largest load of a queue, and the item that first reaches it.
    fn bound(&self, queue: Queue) -> Option<QueueBound>
        ensures { result ≡ bound_to (is_there queue.class queue.station queue.queue) (R.Rule.load self.now.rule self.now.table.items self.now.table.times) self.now.table.items (length self.now.table.items) }
    {
        let mut bound = None;
        // A loop: the number that `enumerate` counts is what the rule is asked about.
        for (i, item) in self.table.items().iter().enumerate() {
            if queue.takes(item) {
                bound = larger(bound, self.rule.load(self.table.ask(i)), i);
            }
        }
        bound
    }

    /// Writes the line of each item into the first records of a table that has so many.
    fn fill(&self, table: &mut [Line])
        requires { length self.now.table.items ≤ length table.old }
        ensures lines { (i : ℕ) → i < length self.now.table.items → slice_index_or table.new i no_line ≡ line_at self.now.table i }
        ensures rest { drop (length self.now.table.items) table.new ≡ drop (length self.now.table.items) table.old }
    {
        for (i, row) in table[..self.count()].iter_mut().enumerate() {
            *row = self.line(i);
        }
    }

    /// Writes a line for each item into the caller's table, from the front. Records behind the last
    /// line stay as they are, and after a refusal all of them do.
    pub fn times(&self, table: &mut [Line]) -> Result<(), Refusal>
        ensures answer { result ≡ times_answer (meaning R.Rule self.now.rule) self.now.table (length table.old) }
        ensures rows { Rows self.now.table result table.old table.new }
        ensures leaves { Leaves (meaning R.Rule self.now.rule) self.now.table (Call.times (length table.old)) self.now.table }
    {
        self.ask_times(table.len())?;
        self.fill(table);
        Ok(())
    }

    /// How many bytes the queue may hold, and the first item with that load; nothing where no item
    /// uses the queue.
    pub fn queue_bound(&self, queue: Queue) -> Result<Option<QueueBound>, Refusal>
        ensures answer { result ≡ bound_answer (meaning R.Rule self.now.rule) self.now.table queue.class queue.station queue.queue }
        ensures leaves { Leaves (meaning R.Rule self.now.rule) self.now.table (Call.queue_bound queue.class queue.station queue.queue) self.now.table }
    {
        self.ask_settled()?;
        Ok(self.bound(queue))
    }

    /// How many items the sheet has.
    pub fn count(&self) -> usize
        ensures value { result ≡ length self.now.table.items }
        ensures fit { Fit self.now.table }
    {
        self.table.items().len()
    }

    /// The record of an item, if there is one with this number.
    pub fn item(&self, number: usize) -> Option<Item>
        ensures { MatchOption result (length self.now.table.items ≤ number) (λ x. (number < length self.now.table.items) × (x ≡ item_at self.now.table number)) }
    {
        self.table.items().get(number).copied()
    }

    /// An allowance that is always enough: (S + 1) × n, where n is the number of items and S the
    /// sum of deadline − duration over them.
    pub fn enough(&self) -> u64
        ensures { result ≡ enough_of self.now.table }
    {
        // Cast: a `usize` has no `From` into a `u64`.
        (self.table.room() + 1) * self.table.items().len() as u64
    }
}
