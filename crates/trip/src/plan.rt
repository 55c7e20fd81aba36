// The calls of the trip, in their order.
use in_place::Message;
use serializer::{ChunkSerializer, PacketError, Serialized};
use std::fmt;
use test_parts::part;
use time::RtmpTimestamp;

// What is asked of the encoder.
#[derive(Clone, Copy)]
enum Request {
    // a message of a type on stream 1, with so many bytes of payload
    Message { type_id: u8, length: usize },
    // a chunk size, whose own message has type 1 and stream 0
    Size(u32),
}

// A call of the encoder, and what is to become of it.
#[derive(Clone, Copy)]
pub struct Call {
    request: Request,
    time: u32,
    can_be_dropped: bool,
    // how many bytes of output are lent
    lent: usize,
    // whether its packet is kept
    pub is_kept: bool,
    // the refusal that is expected
    pub refusal: Option<PacketError>,
}

// How many bytes of output are lent to a call, where nothing else is said.
const LENT: usize = 512;

impl Call {
    fn new(request: Request, time: u32) -> Self {
        Call {
            request,
            time,
            can_be_dropped: false,
            lent: LENT,
            is_kept: true,
            refusal: None,
        }
    }

    // Kept: three that differ in a number, as the fifteen lines of the plan below are no plainer with the number in each.
    fn picture(time: u32, length: usize) -> Self {
        Call::new(Request::Message { type_id: 9, length }, time)
    }

    fn door(time: u32, length: usize) -> Self {
        Call::new(
            Request::Message {
                type_id: 18,
                length,
            },
            time,
        )
    }

    fn sound(time: u32, length: usize) -> Self {
        Call::new(Request::Message { type_id: 8, length }, time)
    }

    fn size(size: u32, time: u32) -> Self {
        Call::new(Request::Size(size), time)
    }

    fn droppable(self) -> Self {
        Call {
            can_be_dropped: true,
            ..self
        }
    }

    fn left_out(self) -> Self {
        Call {
            is_kept: false,
            ..self
        }
    }

    fn lent(self, lent: usize) -> Self {
        Call { lent, ..self }
    }

    fn refused(self, refusal: PacketError) -> Self {
        Call {
            refusal: Some(refusal),
            ..self
        }
    }

    // The payload of its message, at the start of what is lent; `place` is its place in the plan.
    pub fn payload<'a>(&self, place: usize, bytes: &'a mut [u8]) -> &'a [u8] {
        match self.request {
            Request::Message { length, .. } => {
                for (i, byte) in bytes.iter_mut().enumerate() {
                    *byte = ((place % 16 * 31 + i % 256) % 256) as u8;
                }
                part(bytes, 0, length)
            }
            Request::Size(size) => {
                for (byte, of_size) in bytes.iter_mut().zip(size.to_be_bytes()) {
                    *byte = of_size;
                }
                part(bytes, 0, 4)
            }
        }
    }

    // Makes the call with the first bytes of the output, as many as it lends, or with all where there are fewer.
    pub fn make(&self, encoder: ChunkSerializer, payload: &[u8], output: &mut [u8]) -> Serialized {
        let time = RtmpTimestamp::new(self.time);
        let lent = self.lent.min(output.len());
        let output = &mut output[..lent];
        match self.request {
            Request::Message { type_id, .. } => {
                encoder.serialize(
                    type_id,
                    1,
                    time,
                    payload,
                    false,
                    self.can_be_dropped,
                    output,
                )
            }
            Request::Size(size) => encoder.set_max_chunk_size(size, time, output),
        }
    }

    // Whether a message's numbers are those of the call.
    pub fn is_of(&self, message: Message) -> bool {
        let (type_id, stream_id) = match self.request {
            Request::Message { type_id, .. } => (u32::from(type_id), 1),
            Request::Size(_) => (1, 0),
        };
        message.type_id == type_id
            && message.stream_id == stream_id
            && message.timestamp.value == self.time
    }
}

impl fmt::Display for Call {
    fn fmt<W: fmt::Write>(&self, f: &mut fmt::Formatter<W>) -> fmt::Result {
        match self.request {
            Request::Message { type_id, .. } => write!(f, "type {type_id} at {}", self.time),
            Request::Size(size) => write!(f, "size {size} at {}", self.time),
        }
    }
}

pub fn plan() -> [Call; 15] {
    [
        Call::picture(0, 200),
        Call::picture(40, 0).refused(PacketError::NoPayload),
        Call::picture(40, 200),
        Call::door(60, 5),
        Call::picture(80, 200).droppable().left_out(),
        Call::picture(120, 200),
        Call::picture(240, 200),
        Call::size(0, 250).refused(PacketError::ChunkSizeZero),
        Call::picture(280, 200)
            .lent(100)
            .refused(PacketError::OutputTooShort),
        Call::size(50, 280),
        Call::picture(280, 200),
        Call::door(16777300, 60),
        Call::sound(16777300, 60),
        Call::picture(320, 30).droppable(),
        Call::size(2147483648, 320).refused(PacketError::InvalidMaxChunkSize),
    ]
}
