// Body lengths by message type.
ghost use Rattle.std.specs.Prelude.{◌≡◌};
ghost use Rattle.protocol_control.specs.Body.{body_length, kind_of, message_type};

use crate::{Kind, ProtocolControl};

// 0: no body of these has the type. 4 is that of user control.
// Kept: a const table by message type, a project rule; no kind is at an entry of 0.
const BODY_LENGTHS: [usize; 7] = [0, 4, 4, 4, 0, 4, 5];

impl Kind {
    // The type of a message with such a body.
    pub fn message_type(self) -> u8
        ensures { result ≡ message_type self }
    {
        self as u8
    }
}

pub fn body_length(kind: Kind) -> usize
    ensures { result ≡ body_length kind }
{
    BODY_LENGTHS[usize::from(kind.message_type())]
}

pub fn kind_of(control: ProtocolControl) -> Kind
    ensures { result ≡ kind_of control }
{
    match control {
        ProtocolControl::SetChunkSize { .. } => Kind::SetChunkSize,
        ProtocolControl::Abort { .. } => Kind::Abort,
        ProtocolControl::Acknowledgement { .. } => Kind::Acknowledgement,
        ProtocolControl::WindowAcknowledgement { .. } => Kind::WindowAcknowledgement,
        ProtocolControl::SetPeerBandwidth { .. } => Kind::SetPeerBandwidth,
    }
}
