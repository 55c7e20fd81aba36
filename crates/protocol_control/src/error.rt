// Why a body is not read or not written. Each reason has the number of its row in the table of refusals.
ghost use Rattle.std.specs.Prelude.{◌≡◌, Err, Some};
ghost use Rattle.fields.specs.Writing.{refused as not_written};
ghost use Rattle.protocol_control.specs.Answer.{read_answer, refused, write_answer};
ghost use Rattle.protocol_control.specs.Text.{read_error_text, write_error_text};

use std::error::Error;
use std::fmt;

#[derive(Clone, Copy, Debug, PartialEq, Eq)]
pub enum ReadError {
    BodyTooShort = 15,
    OutOfLimits = 16,
}

#[derive(Clone, Copy, Debug, PartialEq, Eq)]
pub enum WriteError {
    OutputTooShort = 5,
    OutOfLimits = 16,
}

impl ReadError {
    // Kept: each enum of refusals casts its own number, here and in other crates: a trait would take an impl for each all the same.
    pub fn number(self) -> u32
        ensures { read_answer (Err self) ≡ refused result }
    {
        self as u32
    }
}

impl WriteError {
    pub fn number(self) -> u32
        ensures { write_answer (Err self) ≡ not_written result }
    {
        self as u32
    }
}

impl fmt::Display for ReadError {
    ghost output = { λ e. Some (read_error_text e) };

    fn fmt<W: fmt::Write>(&self, f: &mut fmt::Formatter<W>) -> fmt::Result {
        match self {
            ReadError::BodyTooShort => write!(f, "the body is too short"),
            ReadError::OutOfLimits => write!(f, "a number of the body is outside its limits"),
        }
    }
}

impl fmt::Display for WriteError {
    ghost output = { λ e. Some (write_error_text e) };

    fn fmt<W: fmt::Write>(&self, f: &mut fmt::Formatter<W>) -> fmt::Result {
        match self {
            WriteError::OutputTooShort => write!(f, "the output is too short"),
            WriteError::OutOfLimits => write!(f, "a number of the body is outside its limits"),
        }
    }
}

impl Error for ReadError {}

impl Error for WriteError {}
