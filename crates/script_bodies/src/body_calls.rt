// The calls of protocol control bodies.
use protocol_control::{Kind, ProtocolControl, WriteError};
use script_said::{Refused, Written};
use script_text::{read_hex, read_number};
use std::fmt;
use std::fmt::Write;

// Puts a body: its name and its numbers.
fn put_control(text: &mut impl Write, control: ProtocolControl) -> fmt::Result {
    match control {
        ProtocolControl::SetChunkSize { size } => write!(text, "size {size}"),
        ProtocolControl::Abort { stream_id } => write!(text, "abort {stream_id}"),
        ProtocolControl::Acknowledgement { sequence_number } => {
            write!(text, "ack {sequence_number}")
        }
        ProtocolControl::WindowAcknowledgement { size } => write!(text, "window {size}"),
        ProtocolControl::SetPeerBandwidth { size, limit_type } => {
            write!(text, "bandwidth {size} {limit_type}")
        }
    }
}

// The kind of this name.
fn kind_of(name: &str) -> Option<Kind> {
    match name {
        "size" => Some(Kind::SetChunkSize),
        "abort" => Some(Kind::Abort),
        "ack" => Some(Kind::Acknowledgement),
        "window" => Some(Kind::WindowAcknowledgement),
        "bandwidth" => Some(Kind::SetPeerBandwidth),
        _ => None,
    }
}

// Makes the call `body read`.
fn read(kind: Kind, body: &[u8], text: &mut impl Write) -> fmt::Result {
    match protocol_control::deserialize(kind, body) {
        Ok(control) => put_control(text, control),
        Err(error) => write!(text, "{}", Refused(error.number())),
    }
}

// Makes the call `body write`.
// Kept: three like it, in three files; one for all would take the crate's writing as a closure and its error's trait: no plainer.
fn write(control: ProtocolControl, output: &mut [u8], text: &mut impl Write) -> fmt::Result {
    let count = protocol_control::serialize(control, output).map_err(WriteError::number);
    write!(text, "{}", Written { count, output })
}

// The body that the words name.
fn read_control(words: &[&str]) -> Option<ProtocolControl> {
    match *words {
        ["size", n] => Some(ProtocolControl::SetChunkSize {
            size: read_number(n)?,
        }),
        ["abort", n] => Some(ProtocolControl::Abort {
            stream_id: read_number(n)?,
        }),
        ["ack", n] => Some(ProtocolControl::Acknowledgement {
            sequence_number: read_number(n)?,
        }),
        ["window", n] => Some(ProtocolControl::WindowAcknowledgement {
            size: read_number(n)?,
        }),
        ["bandwidth", n, l] => Some(ProtocolControl::SetPeerBandwidth {
            size: read_number(n)?,
            limit_type: read_number(l)?,
        }),
        _ => None,
    }
}

// Makes the call that the words are, and puts its answer; none where they are no call. More output than there is cannot be lent.
pub fn make_body(
    words: &[&str],
    bytes: &mut [u8],
    output: &mut [u8],
    text: &mut impl Write,
) -> Option<()> {
    match words {
        ["body", "read", name, hex] => read(kind_of(name)?, read_hex(hex, bytes)?, text).ok(),
        ["body", "write", control @ .., out] => {
            let lent = output.get_mut(..read_number(out)?)?;
            write(read_control(control)?, lent, text).ok()
        }
        _ => None,
    }
}
