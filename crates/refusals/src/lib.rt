// Why a call is refused: one case for each cause, and the number and values by which it is told.
#![tactic(auto)]

ghost use Rattle.std.specs.Prelude.{◌≡◌, Some, slice_index};
ghost use Rattle.refusals.specs.Told.{told, told_reason, section_number, spelled};

use std::fmt;

// What is wrong with an entry of a sheet file's body; each has the number by which it is told.
#[derive(Clone, Copy, PartialEq, Eq, Debug)]
pub enum Reason {
    AboveLimit = 1,
    NoOperator = 3,
    NotUpward = 4,
    NotAscending = 5,
    CountAboveLimit = 6,
}

// The sections of a sheet file; each has the number by which a file names it.
#[derive(Clone, Copy, PartialEq, Eq, Debug)]
pub enum Section {
    Operators = 1,
    Edges = 2,
    Counts = 3,
}

#[derive(Clone, Copy, PartialEq, Eq, Debug)]
pub enum Refusal {
    // a figure of an operator, the limit of an accelerator or a pick time is above what it may be
    AboveLimit,
    // the sheet has all the operators that it can hold
    SheetFull,
    // the number is not below the number of operators
    NoOperator,
    // the edge would lead to the same or a lower number
    NotUpward,
    // the sheet has this edge
    EdgeExists,
    // a count is above its limit
    CountAboveLimit,
    // there are more ideals than the table takes
    TooManyIdeals,
    // a table has fewer cells than the ideals have
    TooFewCells,
    // there is no lawful split
    NoLawfulSplit,
    // no split stands
    NoSplit,
    // the number is not below the number of stages
    NoStage,
    // too short for a sheet file, other letters, or another number of contents entries
    NotASheetFile,
    // the contents entry with this index is wrong
    ContentsEntry(u8),
    // in the body of the section with a number, the entry with an index is wrong
    BodyEntry {
        section: u8,
        entry: usize,
        reason: Reason,
    },
    // the buffer has fewer bytes than what is to go there
    BufferTooShort,
}

impl Reason {
    // The number by which a reason is told.
    pub fn number(&self) -> u8
        ensures { result ≡ told_reason self.now }
    {
        *self as u8
    }
}

impl Section {
    // The number by which a file names a section.
    pub fn number(&self) -> u8
        ensures { result ≡ section_number self.now }
    {
        *self as u8
    }
}

impl Refusal {
    // The number by which a refusal is told, the first of what `told` gives.
    // The cases are named here, since one that carries values cannot have a number of its own.
    pub fn number(&self) -> u8
        ensures { result ≡ slice_index (told self.now) 0 }
    {
        match self {
            Refusal::AboveLimit => 1,
            Refusal::SheetFull => 2,
            Refusal::NoOperator => 3,
            Refusal::NotUpward => 4,
            Refusal::EdgeExists => 5,
            Refusal::CountAboveLimit => 6,
            Refusal::TooManyIdeals => 7,
            Refusal::TooFewCells => 8,
            Refusal::NoLawfulSplit => 9,
            Refusal::NoSplit => 10,
            Refusal::NoStage => 11,
            Refusal::NotASheetFile => 12,
            Refusal::ContentsEntry(_) => 13,
            Refusal::BodyEntry { .. } => 14,
            Refusal::BufferTooShort => 15,
        }
    }
}

// The number of a refusal and then its values, with one space between two.
impl fmt::Display for Refusal {
    ghost output = { λ r. Some (spelled (told r)) };

    fn fmt<W: fmt::Write>(&self, f: &mut fmt::Formatter<W>) -> fmt::Result {
        let number = self.number();
        match self {
            Refusal::ContentsEntry(index) => write!(f, "{number} {index}"),
            Refusal::BodyEntry {
                section,
                entry,
                reason,
            } => {
                let reason = reason.number();
                write!(f, "{number} {section} {entry} {reason}")
            }
            _ => write!(f, "{number}"),
        }
    }
}
