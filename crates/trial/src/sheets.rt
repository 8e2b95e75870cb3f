//! Sheets that are filled by calls, and then called at random.
use crate::calls::{Call, call_plan, draw_call};
use crate::draw::{Style, draw_machine};
use crate::encode::cell_file;
use crate::machine::{Activity, Link, Machine};
use crate::pairs::Trials;
use crate::reckon::rounds_agree;
use crate::replay::Plan;
use crate::seed::Seed;
use crate::tally::Matter;
use crate::tool::ToolSheet;
use crate::verdict::{Answer, Ending, Ran};
use std::alloc::{AllocError, Global};

/// How many calls are drawn for each sheet.
const CALLS: u64 = 40;

/// A sheet of the tool beside the reckoner's plan of it.
#[derive(Drop)]
struct Pair {
    number: u64,
    sheet: ToolSheet,
    plan: Plan,
}

/// Whether whole rounds from nothing come to the same, where a run came to an end.
fn ends_alike(heap: Global, plan: &Plan, answer: &Answer) -> Result<bool, AllocError> {
    match answer {
        Answer::Ran(
            Ran {
                ending: Ending::Settled | Ending::Broken(_, _),
                ..
            },
        ) => rounds_agree(heap, plan),
        _ => Ok(true),
    }
}

impl Pair {
    fn call(&mut self, trials: &mut Trials, call: Call) -> Result<(), AllocError> {
        let heap = trials.heap;
        let answer = self.sheet.call(heap, &call)?;
        let expected = call_plan(heap, &mut self.plan, call)?;
        let alike = ends_alike(heap, &self.plan, &expected)?;
        let tally = &mut trials.tally;
        tally.note_answer(&expected)?;
        tally.note(answer == expected, self.number, Matter::Calls)?;
        tally.note(alike, self.number, Matter::Rounds)
    }

    /// Enters all activities, and then all arcs.
    fn fill(
        &mut self,
        trials: &mut Trials,
        activities: &[Activity],
        links: &[Link],
    ) -> Result<(), AllocError> {
        let entries = activities.iter().map(|activity| Call::Enter(*activity));
        let arcs = links.iter().map(|link| Call::Join(*link));
        for call in entries.chain(arcs) {
            self.call(trials, call)?;
        }
        Ok(())
    }
}

impl Trials {
    /// Tries calls on the sheet that the seed with this number gives.
    pub fn try_sheet(&mut self, number: u64) -> Result<(), AllocError> {
        let heap = self.heap;
        let mut seed = Seed::new(number.wrapping_add(1 << 32));
        let style = Style::draw(&mut seed);
        let drawn = draw_machine(heap, &mut seed, &style)?;
        let cell = cell_file(heap, &drawn)?;
        let Machine {
            stations,
            activities,
            links,
        } = drawn;
        let bare = Machine {
            stations,
            ..Machine::new(heap)
        };
        let mut pair = Pair {
            number,
            sheet: ToolSheet::empty(cell.bytes.as_slice()),
            plan: Plan::new(heap, bare)?,
        };
        self.tally.note_sheet();
        pair.fill(self, activities.as_slice(), links.as_slice())?;
        let enough = pair.sheet.enough() == pair.plan.enough();
        self.tally.note(enough, number, Matter::Calls)?;
        for _ in 0..CALLS {
            let call = draw_call(&mut seed, &pair.plan);
            pair.call(self, call)?;
        }
        Ok(())
    }
}
