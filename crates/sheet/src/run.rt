ghost use Rattle.std.specs.Prelude.{◌≡◌, ◌+◌, ◌<◌, if◌then◌else◌, nat_le, nat_lt};
ghost use Rattle.promise.specs.State.{meaning};
ghost use Rattle.promise.specs.Runs.{run_of};
ghost use Rattle.promise.specs.Calls.{Call, run_ask, run_answer};
ghost use Rattle.promise.specs.Promise.{Leaves};

use crate::ask::ask;
use crate::sheet::Sheet;
use model::rule::Rule;
use promise::outcome::{Became, Ending, Refusal, RunResult};

/// Were the latest steps quiet for each of `n` items?
fn settles(quiet: usize, n: usize) -> bool
    ensures { result ≡ nat_le n quiet }
{
    quiet >= n
}

/// The item after `item`, from 0 again after the last of `n`.
fn next_item(item: usize, n: usize) -> usize
    requires { item < n }
    ensures value { result ≡ (if nat_lt (item + 1) n then item + 1 else 0) }
    ensures inside { result < n }
{
    if item + 1 < n { item + 1 } else { 0 }
}

impl<R: Rule> Sheet<R> {
    /// Steps the items in the order of their numbers, round and round, until the sheet breaks, until
    /// a whole round of steps in a row was quiet, or until no step is allowed any more.
    fn cycle(&mut self, allowance: u64) -> RunResult
        ensures answer { result ≡ (run_of (R.Rule.wait self.old.rule) self.old.table allowance).result }
        ensures state { self.new.table ≡ (run_of (R.Rule.wait self.old.rule) self.old.table allowance).state }
        ensures rule { self.new.rule ≡ self.old.rule }
    {
        let n = self.count();
        // Not counts of the turns: a step that raises a time begins the row of quiet ones again. The item
        // goes round by hand, as a `cycle` over no items gives no turn at all.
        let mut item: usize = 0;
        let mut quiet: usize = 0;
        let mut raises: u64 = 0;
        for steps in 0..allowance {
            if settles(quiet, n) {
                let ending = Ending::Settled;
                return RunResult {
                    ending,
                    steps,
                    raises,
                };
            }
            match self.turn(item) {
                Became::Raised => {
                    quiet = 0;
                    raises += 1;
                }
                Became::Quiet => quiet += 1,
                Became::Broke(cause) => {
                    let ending = Ending::Broken { item, cause };
                    let steps = steps + 1;
                    return RunResult {
                        ending,
                        steps,
                        raises,
                    };
                }
            }
            item = next_item(item, n);
        }
        let ending = if settles(quiet, n) {
            Ending::Settled
        } else {
            Ending::Spent
        };
        let steps = allowance;
        RunResult {
            ending,
            steps,
            raises,
        }
    }

    fn ask_run(&self) -> Result<(), Refusal>
        ensures { result ≡ run_ask self.now.table }
    {
        ask(!self.table.is_broken(), Refusal::SheetBroken)
    }

    /// Runs the sheet with an allowance of steps.
    pub fn run(&mut self, allowance: u64) -> Result<RunResult, Refusal>
        ensures answer { result ≡ run_answer (meaning R.Rule self.old.rule) self.old.table allowance }
        ensures leaves { Leaves (meaning R.Rule self.old.rule) self.old.table (Call.run allowance) self.new.table }
        ensures rule { self.new.rule ≡ self.old.rule }
    {
        self.ask_run()?;
        Ok(self.cycle(allowance))
    }
}
