// The limits of settings.
ghost use Rattle.std.specs.Prelude.{◌≡◌};
ghost use Rattle.settings.specs.Limits.{holds, outside};
ghost use Rattle.settings.specs.Record.{version_of};

use crate::layout::kind_width;
use crate::{Settings, Version};
use chunk_header::{LARGEST_CHUNK_SIZE, LARGEST_ROOM};

// 0, or 1 for older cameras.
const LARGEST_KIND: u32 = 1;

// Whether a number is outside its limits.
#[tactic(auto, unfolding(crate::specs::Limits::outside))]
pub fn is_outside(settings: Settings) -> bool
    ensures { result ≡ outside settings }
{
    !(1..=LARGEST_CHUNK_SIZE).contains(&settings.max_chunk_size)
        || !(1..=LARGEST_ROOM).contains(&settings.room)
        || settings.camera_kind > LARGEST_KIND
}

// Whether a record of this version can hold the settings: where it has no kind, only a kind of 0.
pub fn can_hold(version: Version, settings: Settings) -> bool
    ensures { result ≡ holds (version_of version) settings }
{
    if is_outside(settings) {
        return false;
    }
    kind_width(version) > 0 || settings.camera_kind == 0
}
