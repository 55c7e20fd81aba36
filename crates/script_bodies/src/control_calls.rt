// The calls of user control bodies.
use script_said::{Refused, Written};
use script_text::{read_hex, read_number};
use std::fmt;
use std::fmt::Write;
use time::RtmpTimestamp;
use user_control::{UserControlEvent, WriteError};

// Puts an event: its name and its numbers.
fn put_event(text: &mut impl Write, event: UserControlEvent) -> fmt::Result {
    match event {
        UserControlEvent::StreamBegin { stream_id } => write!(text, "begin {stream_id}"),
        UserControlEvent::StreamEof { stream_id } => write!(text, "end {stream_id}"),
        UserControlEvent::StreamDry { stream_id } => write!(text, "dry {stream_id}"),
        UserControlEvent::SetBufferLength {
            stream_id,
            buffer_length,
        } => write!(text, "buffer {stream_id} {buffer_length}"),
        UserControlEvent::StreamIsRecorded { stream_id } => write!(text, "recorded {stream_id}"),
        UserControlEvent::PingRequest { timestamp } => write!(text, "ping {}", timestamp.value),
        UserControlEvent::PingResponse { timestamp } => write!(text, "pong {}", timestamp.value),
        UserControlEvent::BufferEmpty { stream_id } => write!(text, "empty {stream_id}"),
        UserControlEvent::BufferReady { stream_id } => write!(text, "ready {stream_id}"),
    }
}

// Makes the call `control read`.
fn read(body: &[u8], text: &mut impl Write) -> fmt::Result {
    match user_control::deserialize(body) {
        Ok(event) => put_event(text, event),
        Err(error) => write!(text, "{}", Refused(error.number())),
    }
}

// Makes the call `control write`.
fn write(event: UserControlEvent, output: &mut [u8], text: &mut impl Write) -> fmt::Result {
    let count = user_control::serialize(event, output).map_err(WriteError::number);
    write!(text, "{}", Written { count, output })
}

// The event of the name with its number, a stream id or a timestamp.
fn event_of(name: &str, number: u32) -> Option<UserControlEvent> {
    let stream_id = number;
    let timestamp = RtmpTimestamp::new(number);
    match name {
        "begin" => Some(UserControlEvent::StreamBegin { stream_id }),
        "end" => Some(UserControlEvent::StreamEof { stream_id }),
        "dry" => Some(UserControlEvent::StreamDry { stream_id }),
        "recorded" => Some(UserControlEvent::StreamIsRecorded { stream_id }),
        "ping" => Some(UserControlEvent::PingRequest { timestamp }),
        "pong" => Some(UserControlEvent::PingResponse { timestamp }),
        "empty" => Some(UserControlEvent::BufferEmpty { stream_id }),
        "ready" => Some(UserControlEvent::BufferReady { stream_id }),
        _ => None,
    }
}

// The event that the words name.
fn read_event(words: &[&str]) -> Option<UserControlEvent> {
    match *words {
        ["buffer", stream_id, buffer_length] => Some(UserControlEvent::SetBufferLength {
            stream_id: read_number(stream_id)?,
            buffer_length: read_number(buffer_length)?,
        }),
        [name, number] => event_of(name, read_number(number)?),
        _ => None,
    }
}

// Makes the call that the words are, and puts its answer; none where they are no call. More output than there is cannot be lent.
pub fn make_control(
    words: &[&str],
    bytes: &mut [u8],
    output: &mut [u8],
    text: &mut impl Write,
) -> Option<()> {
    match words {
        ["control", "read", hex] => read(read_hex(hex, bytes)?, text).ok(),
        ["control", "write", event @ .., out] => {
            let lent = output.get_mut(..read_number(out)?)?;
            write(read_event(event)?, lent, text).ok()
        }
        _ => None,
    }
}
