// Why a message was not written.
ghost use Rattle.std.specs.Prelude.{◌≡◌, Some};
ghost use Rattle.serializer.specs.Answer.{number_of};
ghost use Rattle.serializer.specs.Text.{text_of};

use std::error::Error;
use std::fmt;

// The refusals of the encoder, by their numbers.
#[derive(Clone, Copy, Debug, PartialEq, Eq)]
pub enum PacketError {
    NoPayload = 1,
    MessageTooLong = 2,
    ChunkSizeZero = 3,
    InvalidMaxChunkSize = 4,
    OutputTooShort = 5,
}

impl PacketError {
    // Kept: each enum of refusals casts its own number, here and in other crates: a trait would take an impl for each all the same.
    pub fn number(self) -> u32
        ensures { result ≡ number_of self }
    {
        self as u32
    }
}

impl fmt::Display for PacketError {
    ghost output = { λ e. Some (text_of e) };

    fn fmt<W: fmt::Write>(&self, f: &mut fmt::Formatter<W>) -> fmt::Result {
        f.write_str(match self {
            PacketError::NoPayload => "a message has no payload",
            PacketError::MessageTooLong => "a message is longer than 16777215 bytes",
            PacketError::ChunkSizeZero => "a chunk size is 0",
            PacketError::InvalidMaxChunkSize => "a chunk size is above 2147483647",
            PacketError::OutputTooShort => "the output is shorter than the packet",
        })
    }
}

impl Error for PacketError {}
