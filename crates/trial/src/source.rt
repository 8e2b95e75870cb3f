//! The two files of a machine, and how one of them is told from the other.
use std::fmt;

// Kept beside the tool's own type: what is compared uses nothing of the tool.
#[derive(Clone, Copy, PartialEq)]
pub enum Source {
    Cell,
    Process,
}

impl fmt::Display for Source {
    fn fmt<W: fmt::Write>(&self, f: &mut fmt::Formatter<W>) -> fmt::Result {
        let name = match self {
            Source::Cell => "cell",
            Source::Process => "process",
        };
        write!(f, "{name}")
    }
}

/// The bytes of both files.
#[derive(Clone, Copy)]
pub struct Files<'a> {
    pub cell: &'a [u8],
    pub process: &'a [u8],
}

impl<'a> Files<'a> {
    pub fn of(&self, source: Source) -> &'a [u8] {
        match source {
            Source::Cell => self.cell,
            Source::Process => self.process,
        }
    }

    /// The same pair with other bytes in one file.
    pub fn with(&self, source: Source, bytes: &'a [u8]) -> Files<'a> {
        match source {
            Source::Cell => Files {
                cell: bytes,
                process: self.process,
            },
            Source::Process => Files {
                cell: self.cell,
                process: bytes,
            },
        }
    }
}
