ghost use Rattle.std.specs.Prelude.{◌≡◌, Some};
ghost use Rattle.records.specs.declared.fault.Refusal.TheVariants.{Call};
ghost use Rattle.records.specs.Faults.{name_of, number_of, layer_of, fault_text};

use promise::outcome;
use std::fmt;

/// Which of the two files.
#[derive(Clone, Copy)]
pub enum SourceFile {
    Cell,
    Process,
}

/// A question that was answered with no.
#[derive(Clone, Copy)]
pub enum Refusal {
    TooLong,
    NotWhole,
    StrangeKind,
    WrongLength,
    OutOfRange,
    TakenStation,
    BadName,
    /// The entry or the arc that the record asks for.
    Call(outcome::Refusal),
}

/// Who put the question.
#[derive(Clone, Copy)]
pub enum Layer {
    File,
    Bank,
    Sheet,
}

/// The first question that was answered with no, and the place of its record: the byte offset of
/// the record's length in the file.
#[derive(Clone, Copy)]
pub struct Fault {
    pub refusal: Refusal,
    pub place: usize,
    pub file: SourceFile,
}

impl SourceFile {
    /// Its name in print.
    // As a text: callers have it without a formatter, and `Display` writes it.
    pub fn name(self) -> &'static str
        ensures { result.now ≡ name_of self }
    {
        match self {
            SourceFile::Cell => "cell",
            SourceFile::Process => "process",
        }
    }
}

impl fmt::Display for SourceFile {
    ghost output = { λ f. Some (name_of f) };

    fn fmt<W: fmt::Write>(&self, f: &mut fmt::Formatter<W>) -> fmt::Result {
        f.write_str(self.name())
    }
}

impl From<outcome::Refusal> for Refusal {
    ghost from_gives = { λ asked told. told ≡ Call asked };

    fn from(asked: outcome::Refusal) -> Refusal {
        Refusal::Call(asked)
    }
}

impl Refusal {
    /// The number of the question.
    // By cases: a variant that holds a value has no discriminant.
    pub fn number(self) -> u8
        ensures { result ≡ number_of self }
    {
        match self {
            Refusal::TooLong => 1,
            Refusal::NotWhole => 2,
            Refusal::StrangeKind => 3,
            Refusal::WrongLength => 4,
            Refusal::OutOfRange => 5,
            Refusal::TakenStation => 6,
            Refusal::BadName => 7,
            Refusal::Call(refusal) => refusal.number(),
        }
    }
}

impl Fault {
    /// The layer that put the question.
    pub fn layer(&self) -> Layer
        ensures { result ≡ layer_of (number_of self.now.refusal) }
    {
        match self.refusal {
            Refusal::Call(outcome::Refusal::NotAdmitted) => Layer::Bank,
            Refusal::Call(_) => Layer::Sheet,
            _ => Layer::File,
        }
    }
}

impl fmt::Display for Fault {
    ghost output = { λ f. Some (fault_text f) };

    fn fmt<W: fmt::Write>(&self, f: &mut fmt::Formatter<W>) -> fmt::Result {
        let file = self.file;
        let place = self.place;
        let number = self.refusal.number();
        write!(f, "fault {file} {place} {number}")
    }
}
