// The bodies of protocol control messages (messages/types/set_chunk_size.rs, abort.rs, acknowledgement.rs,
// window_acknowledgement_size.rs and set_peer_bandwidth.rs of rml_rtmp).
#![tactic(auto)]

ghost use Rattle.std.specs.Prelude.{◌≡◌};
ghost use Rattle.fields.specs.Writing.{outcome};
ghost use Rattle.protocol_control.specs.Answer.{read_answer, write_answer};
ghost use Rattle.protocol_control.specs.Putting.{putting};
ghost use Rattle.protocol_control.specs.Reading.{reading};

mod error;
mod layout;
mod length;
mod limits;

pub use crate::error::{ReadError, WriteError};
use crate::layout::{control_in, put_body};
use crate::length::{body_length, kind_of};
use crate::limits::is_outside;

// One case for each body, with exactly its numbers.
#[derive(Clone, Copy, Debug, PartialEq, Eq)]
pub enum ProtocolControl {
    SetChunkSize { size: u32 },
    Abort { stream_id: u32 },
    Acknowledgement { sequence_number: u32 },
    WindowAcknowledgement { size: u32 },
    // 0 hard, 1 soft, 2 dynamic
    // Kept: a number and no enum, since `serialize` promises to refuse a larger one with 16 (`outside` in specs/Limits.antt)
    SetPeerBandwidth { size: u32, limit_type: u32 },
}

// Which of them a body is, by its message's type.
#[derive(Clone, Copy, Debug, PartialEq, Eq)]
pub enum Kind {
    SetChunkSize = 1,
    Abort = 2,
    Acknowledgement = 3,
    WindowAcknowledgement = 5,
    SetPeerBandwidth = 6,
}

// Reads the body of this kind at the start of `bytes`.
#[tactic(auto, unfolding(crate::specs::Reading::reading))]
pub fn deserialize(kind: Kind, bytes: &[u8]) -> Result<ProtocolControl, ReadError>
    ensures { read_answer result ≡ reading kind bytes.now }
{
    if bytes.len() < body_length(kind) {
        return Err(ReadError::BodyTooShort);
    }
    let control = control_in(kind, bytes);
    if is_outside(control) {
        return Err(ReadError::OutOfLimits);
    }
    Ok(control)
}

// Writes the body of `control` at the start of `output`, and answers how many bytes it has.
#[tactic(auto, using(crate::proofs::Lengths::length_body), unfolding(crate::specs::Putting::putting, fields::specs::Writing::writing))]
pub fn serialize(control: ProtocolControl, output: &mut [u8]) -> Result<usize, WriteError>
    ensures { outcome (write_answer result) output.new ≡ putting control output.old }
{
    if is_outside(control) {
        return Err(WriteError::OutOfLimits);
    }
    let needed = body_length(kind_of(control));
    if output.len() < needed {
        return Err(WriteError::OutputTooShort);
    }
    put_body(control, output);
    Ok(needed)
}
