// The parts of a record.
ghost use Rattle.std.specs.Prelude.{◌≡◌};
ghost use Rattle.settings.specs.Reading.{length_in, settings_in, short};
ghost use Rattle.settings.specs.Record.{version_of};

use crate::layout::kind_width;
use crate::{Settings, Version};
use fields::number_at;

// The length of what follows it.
pub fn length_in(bytes: &[u8]) -> usize
    ensures { result ≡ length_in bytes.now }
{
    number_at(bytes, 0, 2) as usize
}

// Whether there are not as many bytes as the length says, or no version.
pub fn is_short(bytes: &[u8]) -> bool
    ensures { result ≡ short bytes.now }
{
    let length = length_in(bytes);
    bytes.len() < 3 || length == 0 || bytes.len() < length + 2
}

// The settings in a record of this version: a kind of no bytes is 0.
pub fn settings_in(version: Version, bytes: &[u8]) -> Settings
    ensures { result ≡ settings_in (version_of version) bytes.now }
{
    Settings {
        max_chunk_size: number_at(bytes, 3, 4),
        room: number_at(bytes, 7, 4),
        camera_kind: number_at(bytes, 11, kind_width(version)),
    }
}
