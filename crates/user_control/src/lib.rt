// The bodies of user control messages (messages/types/user_control.rs of rml_rtmp).
#![tactic(auto)]

ghost use Rattle.std.specs.Prelude.{◌≡◌};
ghost use Rattle.fields.specs.Writing.{outcome, writing};
ghost use Rattle.user_control.specs.Answer.{read_answer, write_answer};
ghost use Rattle.user_control.specs.Body.{body};
ghost use Rattle.user_control.specs.Reading.{reading};

mod code;
mod error;
mod length;
mod write;

use crate::code::Code;
pub use crate::error::{ReadError, WriteError};
use crate::length::body_length;
use crate::write::write_numbers;
use fields::number_at;
use time::RtmpTimestamp;

// One case for each event, with exactly its numbers.
#[derive(Clone, Copy, Debug, PartialEq, Eq)]
pub enum UserControlEvent {
    StreamBegin { stream_id: u32 },
    StreamEof { stream_id: u32 },
    StreamDry { stream_id: u32 },
    SetBufferLength { stream_id: u32, buffer_length: u32 },
    StreamIsRecorded { stream_id: u32 },
    PingRequest { timestamp: RtmpTimestamp },
    PingResponse { timestamp: RtmpTimestamp },
    BufferEmpty { stream_id: u32 },
    BufferReady { stream_id: u32 },
}

// Reads the body at the start of `bytes`.
pub fn deserialize(bytes: &[u8]) -> Result<UserControlEvent, ReadError>
    ensures { read_answer result ≡ reading bytes.now }
{
    if bytes.len() < 2 {
        return Err(ReadError::BodyTooShort);
    }
    let code = Code::try_from(number_at(bytes, 0, 2))?;
    if bytes.len() < body_length(code) {
        return Err(ReadError::BodyTooShort);
    }
    let stream_id = number_at(bytes, 2, 4);
    let timestamp = RtmpTimestamp::new(stream_id);
    match code {
        Code::StreamBegin => Ok(UserControlEvent::StreamBegin { stream_id }),
        Code::StreamEof => Ok(UserControlEvent::StreamEof { stream_id }),
        Code::StreamDry => Ok(UserControlEvent::StreamDry { stream_id }),
        Code::SetBufferLength => {
            let buffer_length = number_at(bytes, 6, 4);
            Ok(UserControlEvent::SetBufferLength {
                stream_id,
                buffer_length,
            })
        }
        Code::StreamIsRecorded => Ok(UserControlEvent::StreamIsRecorded { stream_id }),
        Code::PingRequest => Ok(UserControlEvent::PingRequest { timestamp }),
        Code::PingResponse => Ok(UserControlEvent::PingResponse { timestamp }),
        Code::BufferEmpty => Ok(UserControlEvent::BufferEmpty { stream_id }),
        Code::BufferReady => Ok(UserControlEvent::BufferReady { stream_id }),
    }
}

// Writes the body of `event` at the start of `output`, and answers how many bytes it has.
pub fn serialize(event: UserControlEvent, output: &mut [u8]) -> Result<usize, WriteError>
    ensures { outcome (write_answer result) output.new ≡ writing (body event) output.old }
{
    let code = event.code();
    match event {
        UserControlEvent::SetBufferLength {
            stream_id,
            buffer_length,
        } => write_numbers(code, &[stream_id, buffer_length], output),
        UserControlEvent::PingRequest { timestamp }
        | UserControlEvent::PingResponse { timestamp } => write_numbers(
            code,
            &[timestamp.value],
            output,
        ),
        UserControlEvent::StreamBegin { stream_id }
        | UserControlEvent::StreamEof { stream_id }
        | UserControlEvent::StreamDry { stream_id }
        | UserControlEvent::StreamIsRecorded { stream_id }
        | UserControlEvent::BufferEmpty { stream_id }
        | UserControlEvent::BufferReady { stream_id } => write_numbers(code, &[stream_id], output),
    }
}
