// The layout of a record by version.
ghost use Rattle.std.specs.Prelude.{◌+◌, ◌≤◌, ◌≡◌, length};
ghost use Rattle.fields.specs.Output.{over};
ghost use Rattle.settings.specs.Record.{body_length, kind_width, record_of, version_of};

use crate::{Settings, Version};
use fields::put_number;

// Bytes of the camera kind by version: version 2 adds it, and there is no version 0.
const KIND_WIDTHS: [usize; 3] = [0, 0, 1];

// Bytes of the camera kind in a record of this version.
pub fn kind_width(version: Version) -> usize
    ensures { result ≡ kind_width (version_of version) }
{
    KIND_WIDTHS[version as usize]
}

// The length of what follows: the version byte, two numbers of four bytes, and the kind.
pub fn body_length(version: Version) -> usize
    ensures { result ≡ body_length (version_of version) }
{
    9 + kind_width(version)
}

// Puts the record at the start of the output.
pub fn put_record(version: Version, settings: Settings, output: &mut [u8])
    requires { body_length (version_of version) + 2 ≤ length output.old }
    ensures { output.new ≡ over (record_of (version_of version) settings) output.old }
{
    put_number(body_length(version) as u32, 2, output, 0);
    put_number(u32::from(version.number()), 1, output, 2);
    put_number(settings.max_chunk_size, 4, output, 3);
    put_number(settings.room, 4, output, 7);
    put_number(settings.camera_kind, kind_width(version), output, 11);
}
