// The bodies' numbers and where they stand.
ghost use Rattle.std.specs.Prelude.{◌≤◌, ◌≡◌, length};
ghost use Rattle.fields.specs.Output.{over};
ghost use Rattle.protocol_control.specs.Body.{body};
ghost use Rattle.protocol_control.specs.Reading.{control_in};

use crate::{Kind, ProtocolControl};
use fields::{number_at, put_number};

// What the bytes say, taken for a body of this kind.
pub fn control_in(kind: Kind, bytes: &[u8]) -> ProtocolControl
    ensures { result ≡ control_in kind bytes.now }
{
    let number = number_at(bytes, 0, 4);
    match kind {
        Kind::SetChunkSize => ProtocolControl::SetChunkSize { size: number },
        Kind::Abort => ProtocolControl::Abort { stream_id: number },
        Kind::Acknowledgement => ProtocolControl::Acknowledgement {
            sequence_number: number,
        },
        Kind::WindowAcknowledgement => ProtocolControl::WindowAcknowledgement { size: number },
        Kind::SetPeerBandwidth => ProtocolControl::SetPeerBandwidth {
            size: number,
            limit_type: number_at(bytes, 4, 1),
        },
    }
}

// Puts the body at the start of the output.
pub fn put_body(control: ProtocolControl, output: &mut [u8])
    requires { length (body control) ≤ length output.old }
    ensures { output.new ≡ over (body control) output.old }
{
    match control {
        ProtocolControl::SetChunkSize { size: number }
        | ProtocolControl::Abort { stream_id: number }
        | ProtocolControl::Acknowledgement {
            sequence_number: number,
        }
        | ProtocolControl::WindowAcknowledgement { size: number } => put_number(
            number, 4, output, 0,
        ),
        ProtocolControl::SetPeerBandwidth { size, limit_type } => {
            put_number(size, 4, output, 0);
            put_number(limit_type, 1, output, 4);
        }
    }
}
