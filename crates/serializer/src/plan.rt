// What is decided of a packet before its first byte is written.
ghost use Rattle.std.specs.Prelude.{◌≡◌, ◌≤◌, ◌<◌, max, length};
ghost use Rattle.serializer.specs.Header.{first_chunk};
ghost use Rattle.serializer.specs.Packet.{packet};
ghost use Rattle.chunk_header.specs.Limits.{max_length};

use crate::format::{FirstChunk, Message, first_chunk, later_format};
use chunk_header::{ChunkHeader, ChunkHeaderFormat};

// The chunks of a payload: the first one, the format of the later ones, and how many bytes of the payload each has.
#[derive(Clone, Copy)]
pub struct Plan<'a> {
    pub first: FirstChunk,
    pub later: ChunkHeaderFormat,
    pub size: usize,
    pub payload: &'a [u8],
    // the first byte of a chunk says the stream
    pub ghost stream: { first.header.chunk_stream_id < 64 },
    pub ghost cut: { 0 < size },
    pub ghost some: { 0 < length payload.now },
    pub ghost short: { length payload.now ≤ max_length },
}

impl<'a> Plan<'a> {
    ghost use Rattle.serializer.specs.Plan.{bytes_of};

    #[tactic(auto, unfolding(crate::specs::Packet::packet), using(crate::proofs::Stream::stream_range))]
    pub fn new(
        message: Message,
        previous: ChunkHeader,
        max_chunk_size: u32,
        payload: &'a [u8],
    ) -> Plan<'a>
        requires { (0 < length payload.now) × (length payload.now ≤ max_length) }
        ensures first { result.first ≡ first_chunk message previous }
        ensures bytes { bytes_of result ≡ packet (max 1 max_chunk_size) message payload.now previous }
    {
        Plan {
            first: first_chunk(message, previous),
            later: later_format(message.force_uncompressed),
            // no call makes the size 0
            size: (max_chunk_size as usize).max(1),
            payload,
        }
    }
}
