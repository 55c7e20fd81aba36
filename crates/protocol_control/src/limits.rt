// The limits of the bodies' numbers.
ghost use Rattle.std.specs.Prelude.{◌≡◌};
ghost use Rattle.protocol_control.specs.Limits.{no_size, outside};

use crate::ProtocolControl;
use chunk_header::LARGEST_CHUNK_SIZE;

// 2: dynamic.
const LARGEST_LIMIT_TYPE: u32 = 2;

// Whether this is no chunk size.
pub fn is_no_size(size: u32) -> bool
    ensures { result ≡ no_size size }
{
    !(1..=LARGEST_CHUNK_SIZE).contains(&size)
}

// Whether a number is outside its limits.
#[tactic(auto, unfolding(crate::specs::Limits::outside))]
pub fn is_outside(control: ProtocolControl) -> bool
    ensures { result ≡ outside control }
{
    match control {
        ProtocolControl::SetChunkSize { size } => is_no_size(size),
        ProtocolControl::SetPeerBandwidth { limit_type, .. } => limit_type > LARGEST_LIMIT_TYPE,
        _ => false,
    }
}
