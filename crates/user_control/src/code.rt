// The events' codes, each with its number on the wire.
ghost use Rattle.std.specs.Prelude.{◌≡◌};
ghost use Rattle.user_control.specs.Body.{code};
ghost use Rattle.user_control.specs.Code.{Names, number_of};

use crate::{ReadError, UserControlEvent};

#[derive(Clone, Copy, Debug, PartialEq, Eq)]
pub enum Code {
    StreamBegin = 0,
    StreamEof = 1,
    StreamDry = 2,
    SetBufferLength = 3,
    StreamIsRecorded = 4,
    PingRequest = 6,
    PingResponse = 7,
    BufferEmpty = 31,
    BufferReady = 32,
}

impl Code {
    pub fn number(self) -> u32
        ensures { result ≡ number_of self }
    {
        self as u32
    }
}

impl TryFrom<u32> for Code {
    type Error = ReadError;

    ghost try_from_gives = { Names };

    fn try_from(number: u32) -> Result<Code, ReadError> {
        match number {
            0 => Ok(Code::StreamBegin),
            1 => Ok(Code::StreamEof),
            2 => Ok(Code::StreamDry),
            3 => Ok(Code::SetBufferLength),
            4 => Ok(Code::StreamIsRecorded),
            6 => Ok(Code::PingRequest),
            7 => Ok(Code::PingResponse),
            31 => Ok(Code::BufferEmpty),
            32 => Ok(Code::BufferReady),
            _ => Err(ReadError::UnknownCode),
        }
    }
}

impl UserControlEvent {
    pub(crate) fn code(self) -> Code
        ensures { number_of result ≡ code self }
    {
        match self {
            UserControlEvent::StreamBegin { .. } => Code::StreamBegin,
            UserControlEvent::StreamEof { .. } => Code::StreamEof,
            UserControlEvent::StreamDry { .. } => Code::StreamDry,
            UserControlEvent::SetBufferLength { .. } => Code::SetBufferLength,
            UserControlEvent::StreamIsRecorded { .. } => Code::StreamIsRecorded,
            UserControlEvent::PingRequest { .. } => Code::PingRequest,
            UserControlEvent::PingResponse { .. } => Code::PingResponse,
            UserControlEvent::BufferEmpty { .. } => Code::BufferEmpty,
            UserControlEvent::BufferReady { .. } => Code::BufferReady,
        }
    }
}
