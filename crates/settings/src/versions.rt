// Versions by their numbers.
ghost use Rattle.std.specs.Prelude.{◌≡◌, true, false, MatchOption};
ghost use Rattle.settings.specs.Reading.{Names, known};
ghost use Rattle.settings.specs.Record.{version_of};

use crate::{ReadError, Version};

impl Version {
    pub(crate) fn number(self) -> u8
        ensures { result ≡ version_of self }
    {
        self as u8
    }
}

impl TryFrom<u8> for Version {
    type Error = ReadError;

    ghost try_from_gives = { Names };

    fn try_from(number: u8) -> Result<Version, ReadError> {
        match number {
            1 => Ok(Version::One),
            2 => Ok(Version::Two),
            _ => Err(ReadError::UnknownVersion(number)),
        }
    }
}

// The version of this number, where it is one that the reader knows.
pub fn known_version(newest: Version, number: u8) -> Option<Version>
    ensures { MatchOption result (known (version_of newest) number ≡ false) (λ v. (known (version_of newest) number ≡ true) × (version_of v ≡ number)) }
{
    match Version::try_from(number) {
        Ok(version) if number <= newest.number() => Some(version),
        _ => None,
    }
}
