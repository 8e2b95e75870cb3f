//! Pairs of files, whole and spoilt, through the tool and the reckoner.
use crate::draw::{Style, draw_machine};
use crate::encode::{Encoded, Order, cell_file, process_file};
use crate::expected::Page;
use crate::machine::Machine;
use crate::reckon::reckon;
use crate::seed::Seed;
use crate::source::Files;
use crate::spoil::{spoil_activities, spoil_bytes, spoil_links, spoil_stations, weave};
use crate::tally::{Matter, Tally};
use crate::tool::{exported_agrees, page_by_tool, through_tool};
use std::alloc::{AllocError, Global};

/// All that is tried: where it gets its memory, and what came of it so far.
#[derive(Drop)]
pub struct Trials {
    pub heap: Global,
    pub tally: Tally,
}

// Kept as an enum that three methods match: a harm is data, which the style, the machine and the
// files are each asked about in turn.
/// What is done to a machine or its files before they are tried.
#[derive(Clone, Copy)]
enum Harm {
    Nothing,
    Activities,
    Links,
    /// About as many items as a sheet takes.
    Crowd,
    /// About as many arcs as a sheet takes.
    Web,
    Stations,
    CellBytes,
    ProcessBytes,
}

impl Harm {
    /// The harm done to the machine of the seed with this number.
    fn of(number: u64) -> Harm {
        match number % 20 {
            0..=1 => Harm::Activities,
            2 => Harm::Links,
            3 => Harm::Stations,
            4 => Harm::CellBytes,
            5..=6 => Harm::ProcessBytes,
            7 if number % 60 == 7 => Harm::Crowd,
            7 if number % 60 == 27 => Harm::Web,
            _ => Harm::Nothing,
        }
    }

    fn draw_style(self, seed: &mut Seed) -> Style {
        let style = Style::draw(seed);
        match self {
            Harm::Crowd => Style {
                count: seed.index(4).saturating_add(63),
                share: 200,
                ..style
            },
            Harm::Web => Style {
                count: 17,
                share: 200,
                spread: 1,
                ..style
            },
            _ => style,
        }
    }

    fn spoil(self, seed: &mut Seed, machine: &mut Machine) -> Result<(), AllocError> {
        match self {
            Harm::Activities => spoil_activities(seed, machine),
            Harm::Links => spoil_links(seed, machine),
            Harm::Stations => spoil_stations(seed, machine),
            Harm::Web => weave(machine, seed.index(4).saturating_add(127)),
            _ => Ok(()),
        }
    }

    fn spoil_files(
        self,
        seed: &mut Seed,
        cell: &mut Encoded,
        process: &mut Encoded,
    ) -> Result<(), AllocError> {
        match self {
            Harm::CellBytes => spoil_bytes(seed, cell),
            Harm::ProcessBytes => spoil_bytes(seed, process),
            _ => Ok(()),
        }
    }
}

impl Trials {
    pub fn new(heap: Global) -> Trials {
        Trials {
            heap,
            tally: Tally::new(heap),
        }
    }

    /// Compares the verdicts and the pages on two files.
    pub fn compare(&mut self, number: u64, files: Files<'_>) -> Result<(), AllocError> {
        let heap = self.heap;
        let reckoned = reckon(heap, files)?;
        let verdict = through_tool(heap, files, reckoned.outlets.as_slice())?;
        let expected = Page {
            verdict: &reckoned.verdict,
            machine: &reckoned.machine,
        };
        let expected = format!(in heap; "{expected}")?;
        let page = page_by_tool(heap, files)?;
        let exported = exported_agrees(files, &reckoned.verdict);
        self.tally.note_verdict(&reckoned.verdict)?;
        self.tally.note(page == expected, number, Matter::Pages)?;
        self.tally
            .note(verdict == reckoned.verdict, number, Matter::Files)?;
        self.tally.note(exported, number, Matter::Exported)?;
        self.tally.note(reckoned.agrees, number, Matter::Rounds)
    }

    /// Tries the pair of files that the seed with this number gives.
    pub fn try_pair(&mut self, number: u64) -> Result<(), AllocError> {
        let mut seed = Seed::new(number);
        let harm = Harm::of(number);
        let style = harm.draw_style(&mut seed);
        let mut machine = draw_machine(self.heap, &mut seed, &style)?;
        harm.spoil(&mut seed, &mut machine)?;
        let order = if seed.once_in(2) {
            Order::Soon
        } else {
            Order::Last
        };
        let mut cell = cell_file(self.heap, &machine)?;
        let mut process = process_file(self.heap, &machine, order)?;
        harm.spoil_files(&mut seed, &mut cell, &mut process)?;
        let files = Files {
            cell: cell.bytes.as_slice(),
            process: process.bytes.as_slice(),
        };
        self.compare(number, files)
    }
}
