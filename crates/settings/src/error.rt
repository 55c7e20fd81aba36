// Why a record is not read or not written. Each reason has the number of its row in the table of refusals.
ghost use Rattle.std.specs.Prelude.{◌≡◌, Err, Some};
ghost use Rattle.fields.specs.Writing.{refused as not_written};
ghost use Rattle.settings.specs.Answer.{number_in, read_answer, write_answer};
ghost use Rattle.settings.specs.Text.{read_error_text, write_error_text};

use std::error::Error;
use std::fmt;

#[derive(Clone, Copy, Debug, PartialEq, Eq)]
pub enum ReadError {
    TooShort,
    // with the version that it met
    UnknownVersion(u8),
    WrongLength,
    OutOfLimits,
}

#[derive(Clone, Copy, Debug, PartialEq, Eq)]
pub enum WriteError {
    OutputTooShort = 5,
    OutOfLimits = 28,
}

impl ReadError {
    // Kept: a match, as a case that carries the version has no cast.
    pub fn number(self) -> u32
        ensures { number_in (read_answer (Err self)) ≡ result }
    {
        match self {
            ReadError::TooShort => 25,
            ReadError::UnknownVersion(_) => 26,
            ReadError::WrongLength => 27,
            ReadError::OutOfLimits => 28,
        }
    }
}

impl WriteError {
    pub fn number(self) -> u32
        ensures { write_answer (Err self) ≡ not_written result }
    {
        self as u32
    }
}

impl fmt::Display for ReadError {
    ghost output = { λ e. Some (read_error_text e) };

    fn fmt<W: fmt::Write>(&self, f: &mut fmt::Formatter<W>) -> fmt::Result {
        match self {
            ReadError::TooShort => write!(f, "the record is too short"),
            ReadError::UnknownVersion(version) => write!(f, "version {version} is unknown"),
            ReadError::WrongLength => write!(f, "the length is not the version's"),
            ReadError::OutOfLimits => write!(f, "a number of the record is outside its limits"),
        }
    }
}

impl fmt::Display for WriteError {
    ghost output = { λ e. Some (write_error_text e) };

    fn fmt<W: fmt::Write>(&self, f: &mut fmt::Formatter<W>) -> fmt::Result {
        match self {
            WriteError::OutputTooShort => write!(f, "the output is too short"),
            WriteError::OutOfLimits => write!(f, "the version cannot hold the settings"),
        }
    }
}

impl Error for ReadError {}

impl Error for WriteError {}
