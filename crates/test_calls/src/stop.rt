// Why a walk stops.
ghost use Rattle.std.specs.Prelude.{◌≡◌, Err};
ghost use Rattle.std.specs.declared.io.Error.{Error};

use in_place::Refusal;
use std::error::Error;
use std::{fmt, io};

// What stops a walk before the end of its input.
#[derive(Debug, Drop)]
pub enum Stop {
    // the decoder refused what came
    Refused(u32),
    // it refused a chunk size
    SizeRefused(Refusal),
    // it used more bytes than it was offered
    TooFar,
    // what came is not what was kept
    NotKept,
    // a line could not be written
    Io(io::Error),
}

impl Stop {
    // Writes why; what could not be written before is passed on.
    pub fn tell(self, rt: &impl Print) -> io::Result<()>
        ensures { (error : Error) → self ≡ Stop.Io error → result ≡ Err error }
    {
        match self {
            Stop::Io(error) => Err(error),
            stop => println!(rt; "{stop}"),
        }
    }
}

impl From<io::Error> for Stop {
    fn from(error: io::Error) -> Self {
        Stop::Io(error)
    }
}

impl fmt::Display for Stop {
    fn fmt<W: fmt::Write>(&self, f: &mut fmt::Formatter<W>) -> fmt::Result {
        match self {
            Stop::Refused(number) => write!(f, "refused {number}"),
            Stop::SizeRefused(refusal) => write!(f, "a chunk size was {refusal}"),
            Stop::TooFar => write!(f, "more bytes used than offered"),
            Stop::NotKept => write!(f, "not the message that was kept"),
            Stop::Io(error) => write!(f, "{error}"),
        }
    }
}

impl Error for Stop {}
