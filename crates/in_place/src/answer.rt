// What a call answers.
ghost use Rattle.std.specs.Prelude.{◌≡◌};
ghost use Rattle.decoding.specs.Answer.{refused as answer_refused};
ghost use Rattle.decoding.specs.Call.{read};
ghost use Rattle.held.specs.Numbers.{held_in, reader_from};
ghost use Rattle.in_place.specs.Answer.{answer_of};

use held::held_in;
use time::RtmpTimestamp;

// A message: its payload is the first `length` bytes of the payload buffer.
#[derive(Clone, Copy, Debug, PartialEq, Eq)]
pub struct Message {
    pub type_id: u32,
    pub stream_id: u32,
    pub timestamp: RtmpTimestamp,
    pub length: u32,
}

// Kept: three cases, each with what was used, are the shape of no Option or Result.
#[derive(Clone, Copy, Debug, PartialEq, Eq)]
pub enum Answer {
    Message { message: Message, used: usize },
    More { used: usize },
    Refused { number: u32, used: usize },
}

// The message that has been read.
pub fn handed(held: &[u32; 24], used: usize) -> Answer
    ensures { answer_of result ≡ read (reader_from (held_in held.now)) used }
{
    let header = held_in(held).header;
    let message = Message {
        type_id: header.kind,
        stream_id: header.stream,
        timestamp: RtmpTimestamp::new(header.time),
        length: header.length,
    };
    Answer::Message { message, used }
}

pub fn refused(number: u32, used: usize) -> Answer
    ensures { answer_of result ≡ answer_refused number used }
{
    Answer::Refused { number, used }
}
