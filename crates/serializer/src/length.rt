// How many bytes a packet takes, by arithmetic.
ghost use Rattle.std.specs.Prelude.{◌≡◌, [], length};
ghost use Rattle.chunk_header.specs.Layout.{chunk_bytes, extended_bytes};
ghost use Rattle.serializer.specs.Packet.{chunk, extended};
ghost use Rattle.serializer.specs.Plan.{bytes_of};

use crate::plan::Plan;
use chunk_header::{ChunkHeader, ChunkHeaderFormat, MAX_INITIAL_TIMESTAMP, header_length};

// What the extended time takes.
#[tactic(auto, unfolding(fields::specs::Endian::big_endian))]
fn extended_length(timestamp_field: u32) -> usize
    ensures { result ≡ length (extended_bytes (extended timestamp_field)) }
{
    if timestamp_field < MAX_INITIAL_TIMESTAMP {
        0
    } else {
        4
    }
}

// What a chunk takes before its payload.
#[tactic(auto, using(crate::proofs::Chunk::length_head, crate::proofs::Chunk::extended_most, chunk_header::proofs::Table::header_most))]
fn chunk_length(format: ChunkHeaderFormat, header: ChunkHeader) -> usize
    ensures { result ≡ length (chunk_bytes (chunk format header [])) }
{
    1 + header_length(format) + extended_length(header.timestamp_field)
}

impl Plan<'_> {
    // What all chunks take. Most payloads are one.
    #[tactic(auto, using(crate::proofs::Chunk::head_most, crate::proofs::PacketLength::heads))]
    pub fn length(&self) -> usize
        ensures { result ≡ length (bytes_of self.now) }
    {
        let header = self.first.header;
        let first = chunk_length(self.first.format, header);
        if self.payload.len() <= self.size {
            return first + self.payload.len();
        }
        let more = (self.payload.len() - 1) / self.size;
        first + more * chunk_length(self.later, header) + self.payload.len()
    }
}
