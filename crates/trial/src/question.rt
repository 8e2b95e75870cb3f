//! The questions that a file or a call may fail, each with its number.
use std::fmt;

/// What was answered with no, in the order of the numbers, which begin at 0.
#[derive(Clone, Copy, PartialEq, Eq, PartialOrd, Ord)]
pub enum Question {
    // Kept as a case: with an error here each verdict and answer would hold a Result, though only
    // the tool's side can tell such a number, and the reckoner's never equals it.
    /// The tool told a number that none of the questions has.
    Unknown,
    FileSize,
    WholeRecord,
    Kind,
    Length,
    Figures,
    NewStation,
    Spelling,
    RoomForItem,
    Period,
    Limits,
    Start,
    NewPriority,
    Admission,
    KnownItem,
    SameItem,
    ArcOrder,
    NewArc,
    RoomForArc,
    Unbroken,
    Settled,
    Table,
}

impl From<u8> for Question {
    fn from(number: u8) -> Question {
        match number {
            1 => Question::FileSize,
            2 => Question::WholeRecord,
            3 => Question::Kind,
            4 => Question::Length,
            5 => Question::Figures,
            6 => Question::NewStation,
            7 => Question::Spelling,
            8 => Question::RoomForItem,
            9 => Question::Period,
            10 => Question::Limits,
            11 => Question::Start,
            12 => Question::NewPriority,
            13 => Question::Admission,
            14 => Question::KnownItem,
            15 => Question::SameItem,
            16 => Question::ArcOrder,
            17 => Question::NewArc,
            18 => Question::RoomForArc,
            19 => Question::Unbroken,
            20 => Question::Settled,
            21 => Question::Table,
            _ => Question::Unknown,
        }
    }
}

/// The number of the question.
impl fmt::Display for Question {
    fn fmt<W: fmt::Write>(&self, f: &mut fmt::Formatter<W>) -> fmt::Result {
        // Kept as a cast: the number of a question is its discriminant.
        let number = *self as u8;
        write!(f, "{number}")
    }
}

/// The question, unless it is answered with yes.
pub fn ask(yes: bool, question: Question) -> Result<(), Question> {
    if yes { Ok(()) } else { Err(question) }
}
