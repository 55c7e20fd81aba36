// The encoder: messages in, chunks out (chunk_io/serializer.rs of rml_rtmp).
#![tactic(auto)]

ghost use Rattle.std.specs.Prelude.{◌≡◌, ◌<◌, ◌≤◌, ◌⊎◌, length, MatchResult};
ghost use Rattle.serializer.specs.Answer.{answer_of};
ghost use Rattle.serializer.specs.Message.{message as message_of};
ghost use Rattle.serializer.specs.Remembered.{fresh, previous};
ghost use Rattle.serializer.specs.Serialize.{needed, outcome, outcome_of, sent, serialized, size_changed};
ghost use Rattle.chunk_header.specs.Limits.{max_length};

mod cursor;
mod error;
mod format;
mod length;
mod plan;
mod write;

pub use crate::error::PacketError;
use crate::format::{Message, row_of};
use crate::plan::Plan;
use chunk_header::{ChunkHeader, INITIAL_MAX_CHUNK_SIZE, LARGEST_CHUNK_SIZE};
use time::RtmpTimestamp;

const MAX_MESSAGE_LENGTH: usize = 16777215;

// Rows 0 to 4 are those of chunk streams 2 to 6.
#[derive(Clone, Copy)]
pub struct ChunkSerializer {
    previous_headers: [ChunkHeader; 5],
    max_chunk_size: u32,
    // 0, for nothing but the length: an encoder is copied with each call, in eight steps of 16 bytes
    unused: u32,
}

// How many bytes the packet has, the output's first; and the encoder handed back beside it.
// Kept: a rule of the project has an encoder go in by value and come back beside its answer, after a refusal too.
#[derive(Clone, Copy)]
pub struct Serialized {
    pub serializer: ChunkSerializer,
    pub packet: Result<usize, PacketError>,
}

// The length of a payload that a message may have.
fn payload_length(payload: &[u8]) -> Result<u32, PacketError>
    ensures { MatchResult result (λ n. (n ≡ length payload.now) × (0 < n) × (n ≤ max_length))
        (λ e. ((e ≡ PacketError.NoPayload) × (length payload.now ≡ 0)) ⊎ ((e ≡ PacketError.MessageTooLong) × (max_length < length payload.now))) }
{
    match payload.len() {
        0 => Err(PacketError::NoPayload),
        1..=MAX_MESSAGE_LENGTH => Ok(payload.len() as u32),
        _ => Err(PacketError::MessageTooLong),
    }
}

impl ChunkSerializer {
    pub fn new() -> ChunkSerializer
        ensures { result ≡ fresh }
    {
        ChunkSerializer {
            previous_headers: [ChunkHeader::new(); 5],
            max_chunk_size: INITIAL_MAX_CHUNK_SIZE,
            unused: 0,
        }
    }

    // What is remembered of the message's stream.
    fn previous(&self, message: Message) -> ChunkHeader
        ensures { result ≡ previous self.now message }
    {
        self.previous_headers[row_of(message.type_id)]
    }

    // Sends a message whose payload has a length that is allowed; from then on chunks have `size_after`. A refusal leaves all as before.
    #[tactic(auto, unfolding(crate::specs::Serialize::sent))]
    fn send(
        &mut self,
        message: Message,
        payload: &[u8],
        size_after: u32,
        output: &mut [u8],
    ) -> Result<usize, PacketError>
        requires { (0 < length payload.now) × (length payload.now ≤ max_length) }
        ensures { outcome result self.new output.new ≡ sent self.old message payload.now size_after output.old }
    {
        let plan = Plan::new(
            message,
            self.previous(message),
            self.max_chunk_size,
            payload,
        );
        let needed = plan.length();
        if output.len() < needed {
            return Err(PacketError::OutputTooShort);
        }
        // Before the bytes are written: a copy of the encoder straight after these stores would wait for them.
        self.previous_headers[row_of(message.type_id)] = plan.first.header;
        self.max_chunk_size = size_after;
        plan.write(output);
        Ok(needed)
    }

    // Writes a message, or refuses it where its payload has a length that is not allowed.
    #[tactic(auto, unfolding(crate::specs::Serialize::serialized))]
    fn write_message(
        &mut self,
        type_id: u8,
        stream_id: u32,
        timestamp: RtmpTimestamp,
        payload: &[u8],
        force_uncompressed: bool,
        can_be_dropped: bool,
        output: &mut [u8],
    ) -> Result<usize, PacketError>
        ensures { outcome result self.new output.new ≡ serialized self.old (message_of type_id stream_id timestamp.value (length payload.now) force_uncompressed can_be_dropped) payload.now output.old }
    {
        let message = Message {
            type_id,
            stream_id,
            timestamp,
            length: payload_length(payload)?,
            force_uncompressed,
            can_be_dropped,
        };
        self.send(message, payload, self.max_chunk_size, output)
    }

    // Writes a message at the start of `output`.
    // Kept: six arguments for a message, here, above and in `packet_length`: callers outside, README's example too, give them so.
    pub fn serialize(
        mut self,
        type_id: u8,
        stream_id: u32,
        timestamp: RtmpTimestamp,
        payload: &[u8],
        force_uncompressed: bool,
        can_be_dropped: bool,
        output: &mut [u8],
    ) -> Serialized
        ensures { outcome_of result output.new ≡ serialized self (message_of type_id stream_id timestamp.value (length payload.now) force_uncompressed can_be_dropped) payload.now output.old }
    {
        let packet = self.write_message(
            type_id,
            stream_id,
            timestamp,
            payload,
            force_uncompressed,
            can_be_dropped,
            output,
        );
        Serialized {
            serializer: self,
            packet,
        }
    }

    // Writes the message that tells the new size, which holds afterwards.
    #[tactic(auto, unfolding(crate::specs::Serialize::size_changed))]
    pub fn set_max_chunk_size(
        mut self,
        new_size: u32,
        time: RtmpTimestamp,
        output: &mut [u8],
    ) -> Serialized
        ensures { outcome_of result output.new ≡ size_changed self new_size time.value output.old }
    {
        let packet = match new_size {
            0 => Err(PacketError::ChunkSizeZero),
            1..=LARGEST_CHUNK_SIZE => {
                let message = Message {
                    type_id: 1,
                    stream_id: 0,
                    timestamp: time,
                    length: 4,
                    force_uncompressed: true,
                    can_be_dropped: false,
                };
                self.send(message, &new_size.to_be_bytes(), new_size, output)
            }
            _ => Err(PacketError::InvalidMaxChunkSize),
        };
        Serialized {
            serializer: self,
            packet,
        }
    }

    // What `serialize` answers of the same message where the output is long enough.
    #[tactic(auto, unfolding(crate::specs::Serialize::needed))]
    pub fn packet_length(
        self,
        type_id: u8,
        stream_id: u32,
        timestamp: RtmpTimestamp,
        payload: &[u8],
        force_uncompressed: bool,
        can_be_dropped: bool,
    ) -> Result<usize, PacketError>
        ensures { answer_of result ≡ needed self (message_of type_id stream_id timestamp.value (length payload.now) force_uncompressed can_be_dropped) payload.now }
    {
        let message = Message {
            type_id,
            stream_id,
            timestamp,
            length: payload_length(payload)?,
            force_uncompressed,
            can_be_dropped,
        };
        let plan = Plan::new(
            message,
            self.previous(message),
            self.max_chunk_size,
            payload,
        );
        Ok(plan.length())
    }

    pub fn get_max_chunk_size(self) -> u32
        ensures { result ≡ self.max_chunk_size }
    {
        self.max_chunk_size
    }
}
