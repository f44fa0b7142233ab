// What is wrong with a line of a text.
ghost use Rattle.std.specs.Prelude.{Some};
ghost use Rattle.sheet_text.specs.Causes.{slip_text, cause_text, bad_line_text};

use refusals::Refusal;
use std::error::Error;
use std::fmt;

// What is wrong with a line by itself.
#[derive(Clone, Copy, PartialEq, Eq, Debug)]
pub enum Slip {
    // its first field is none of the words that begin an item
    UnknownItem,
    TooFewNumbers,
    TooManyNumbers,
    // a field in the place of a number has other bytes than digits
    NotANumber,
    // a number does not fit 32 bits
    NumberTooLarge,
}

// Why a line is bad: by itself, or since the sheet refuses its item.
#[derive(Clone, Copy, PartialEq, Eq, Debug)]
pub enum Cause {
    Slip(Slip),
    Refused(Refusal),
}

// A bad line, counted from 1.
#[derive(Clone, Copy, PartialEq, Eq, Debug)]
pub struct BadLine {
    pub line: usize,
    pub cause: Cause,
}

impl fmt::Display for Slip {
    ghost output = { λ slip. Some (slip_text slip) };

    fn fmt<W: fmt::Write>(&self, f: &mut fmt::Formatter<W>) -> fmt::Result {
        match self {
            Slip::UnknownItem => write!(f, "unknown item"),
            Slip::TooFewNumbers => write!(f, "too few numbers"),
            Slip::TooManyNumbers => write!(f, "too many numbers"),
            Slip::NotANumber => write!(f, "not a number"),
            Slip::NumberTooLarge => write!(f, "number too large"),
        }
    }
}

impl fmt::Display for Cause {
    ghost output = { λ cause. Some (cause_text cause) };

    fn fmt<W: fmt::Write>(&self, f: &mut fmt::Formatter<W>) -> fmt::Result {
        match self {
            Cause::Slip(slip) => write!(f, "{slip}"),
            Cause::Refused(refusal) => write!(f, "refused {refusal}"),
        }
    }
}

impl fmt::Display for BadLine {
    ghost output = { λ bad. Some (bad_line_text bad) };

    fn fmt<W: fmt::Write>(&self, f: &mut fmt::Formatter<W>) -> fmt::Result {
        let BadLine { line, cause } = *self;
        write!(f, "line {line}: {cause}")
    }
}

impl Error for BadLine {}
