// Which chunk stream, which format and which time field the first chunk of a message has.
ghost use Rattle.std.specs.Prelude.{◌≡◌, ◌-◌, ◌<◌};
ghost use Rattle.serializer.specs.Header.{first_chunk, time_field};
ghost use Rattle.serializer.specs.Header.{delta as delta_of, format as format_of};
ghost use Rattle.serializer.specs.Packet.{later_format};
ghost use Rattle.serializer.specs.Message.{chunk_stream};

use chunk_header::{ChunkHeader, ChunkHeaderFormat};
use time::RtmpTimestamp;

// A message, its payload aside.
#[derive(Clone, Copy)]
pub struct Message {
    pub type_id: u8,
    pub stream_id: u32,
    pub timestamp: RtmpTimestamp,
    pub length: u32,
    pub force_uncompressed: bool,
    pub can_be_dropped: bool,
}

// The first chunk of a message: its format, and the header that is written and remembered.
#[derive(Clone, Copy)]
pub struct FirstChunk {
    pub format: ChunkHeaderFormat,
    pub header: ChunkHeader,
}

#[tactic(auto, unfolding(crate::specs::Message::chunk_stream))]
fn get_csid_for_message_type(type_id: u8) -> u32
    ensures { result ≡ chunk_stream type_id }
{
    match type_id {
        1..=6 => 2,
        18 | 19 => 3,
        9 => 4,
        8 => 5,
        _ => 6,
    }
}

// Rows 0 to 4 are those of chunk streams 2 to 6.
#[tactic(auto, using(crate::proofs::Stream::stream_range))]
pub fn row_of(type_id: u8) -> usize
    ensures row { result ≡ chunk_stream type_id - 2 }
    ensures within { result < 5 }
{
    (get_csid_for_message_type(type_id) - 2) as usize
}

// Later chunks are type 3; when forced, they are all type 0.
pub fn later_format(force_uncompressed: bool) -> ChunkHeaderFormat
    ensures { result ≡ later_format force_uncompressed }
{
    if force_uncompressed {
        ChunkHeaderFormat::Full
    } else {
        ChunkHeaderFormat::Empty
    }
}

// The wrapped difference to the remembered timestamp.
#[tactic(auto, unfolding(crate::specs::Header::delta))]
fn delta(message: Message, previous: ChunkHeader) -> u32
    ensures { result ≡ delta_of message previous }
{
    message.timestamp.subtract(previous.timestamp).value
}

// The five rules, in their order.
#[tactic(auto, unfolding(crate::specs::Header::format))]
fn get_header_format(message: Message, previous: ChunkHeader) -> ChunkHeaderFormat
    ensures { result ≡ format_of message previous }
{
    if message.force_uncompressed
        || previous.chunk_stream_id != get_csid_for_message_type(message.type_id)
        || previous.can_be_dropped
        || message.stream_id != previous.message_stream_id
    {
        ChunkHeaderFormat::Full
    } else if message.type_id != previous.message_type_id
        || message.length != previous.message_length
    {
        ChunkHeaderFormat::TimeDeltaWithoutMessageStreamId
    } else if delta(message, previous) != previous.timestamp_field {
        ChunkHeaderFormat::TimeDeltaOnly
    } else {
        ChunkHeaderFormat::Empty
    }
}

// The time field: the absolute time in type 0, else the delta.
fn time_field(format: ChunkHeaderFormat, time: u32, delta: u32) -> u32
    ensures { result ≡ time_field format time delta }
{
    match format {
        ChunkHeaderFormat::Full => time,
        _ => delta,
    }
}

// What the first chunk of the message says, after what is remembered of its stream.
pub fn first_chunk(message: Message, previous: ChunkHeader) -> FirstChunk
    ensures { result ≡ first_chunk message previous }
{
    let format = get_header_format(message, previous);
    let header = ChunkHeader {
        chunk_stream_id: get_csid_for_message_type(message.type_id),
        timestamp: message.timestamp,
        timestamp_field: time_field(format, message.timestamp.value, delta(message, previous)),
        message_length: message.length,
        message_type_id: message.type_id,
        message_stream_id: message.stream_id,
        can_be_dropped: message.can_be_dropped,
    };
    FirstChunk { format, header }
}
