// The settings of a bank, stored as records: a length of what follows, a version, then fields.
#![tactic(auto)]

ghost use Rattle.std.specs.Prelude.{◌≡◌};
ghost use Rattle.fields.specs.Writing.{outcome};
ghost use Rattle.settings.specs.Answer.{read_answer, write_answer};
ghost use Rattle.settings.specs.Reading.{reading};
ghost use Rattle.settings.specs.Record.{version_of};
ghost use Rattle.settings.specs.Storing.{storing};

mod error;
mod layout;
mod limits;
mod parts;
mod versions;

pub use crate::error::{ReadError, WriteError};
use crate::layout::{body_length, put_record};
use crate::limits::{can_hold, is_outside};
use crate::parts::{is_short, length_in, settings_in};
use crate::versions::known_version;

// The versions of a record, by their numbers.
#[derive(Clone, Copy, Debug, PartialEq, Eq)]
pub enum Version {
    One = 1,
    Two = 2,
}

// What a bank is set to.
#[derive(Clone, Copy, Debug, PartialEq, Eq)]
pub struct Settings {
    pub max_chunk_size: u32,
    pub room: u32,
    // 0, or 1 for older cameras
    // Kept: a number and no enum, since `read` and `write` promise to refuse a larger one with 28 (`outside` in specs/Limits.antt)
    pub camera_kind: u32,
}

// What a record says, and how many bytes it has.
#[derive(Clone, Copy, Debug, PartialEq, Eq)]
pub struct Stored {
    pub settings: Settings,
    pub used: usize,
}

// Reads the record at the start of `bytes`, of a version up to the newest that the reader knows.
#[tactic(auto, unfolding(crate::specs::Reading::reading))]
pub fn read(newest: Version, bytes: &[u8]) -> Result<Stored, ReadError>
    ensures { read_answer result ≡ reading (version_of newest) bytes.now }
{
    if is_short(bytes) {
        return Err(ReadError::TooShort);
    }
    let number = bytes[2];
    let Some(version) = known_version(newest, number) else {
        return Err(ReadError::UnknownVersion(number));
    };
    let length = length_in(bytes);
    if length != body_length(version) {
        return Err(ReadError::WrongLength);
    }
    let settings = settings_in(version, bytes);
    if is_outside(settings) {
        return Err(ReadError::OutOfLimits);
    }
    Ok(Stored {
        settings,
        used: length + 2,
    })
}

// Writes the record of this version at the start of `output`, and answers how many bytes it has.
#[tactic(auto, using(crate::proofs::Record::length_record), unfolding(crate::specs::Storing::storing, fields::specs::Writing::writing))]
pub fn write(version: Version, settings: Settings, output: &mut [u8]) -> Result<usize, WriteError>
    ensures { outcome (write_answer result) output.new ≡ storing (version_of version) settings output.old }
{
    if !can_hold(version, settings) {
        return Err(WriteError::OutOfLimits);
    }
    let needed = body_length(version) + 2;
    if output.len() < needed {
        return Err(WriteError::OutputTooShort);
    }
    put_record(version, settings, output);
    Ok(needed)
}
