// How a packet is written: chunk after chunk, each field at its place.
ghost use Rattle.std.specs.Prelude.{◌≡◌, [], ◌++◌, ◌+◌, ◌*◌, ◌≤◌, ◌<◌, length};
ghost use Rattle.fields.specs.Endian.{big_endian, little_endian};
ghost use Rattle.fields.specs.Output.{over};
ghost use Rattle.chunk_header.specs.Layout.{chunk_bytes, extended_bytes, header_bytes};
ghost use Rattle.chunk_header.specs.Table.{header_length, type_of};
ghost use Rattle.serializer.specs.Cursor.{Added, HasRoom};
ghost use Rattle.serializer.specs.Packet.{chunk, extended, initial_time, message_header};
ghost use Rattle.serializer.specs.Plan.{bytes_of};

use crate::cursor::Cursor;
use crate::plan::Plan;
use chunk_header::{ChunkHeader, ChunkHeaderFormat, MAX_INITIAL_TIMESTAMP};

#[tactic(auto, using(chunk_header::proofs::Table::type_lt))]
fn first_byte(format: ChunkHeaderFormat, csid: u32) -> u32
    requires { csid < 64 }
    ensures { result ≡ 64 * type_of format + csid }
{
    64 * format as u32 + csid
}

impl Cursor<'_> {
    // Adds the 24-bit field of the time.
    fn initial_timestamp(&mut self, header: ChunkHeader)
        requires { HasRoom self.old 3 }
        ensures { Added self.old (big_endian 3 (initial_time header.timestamp_field)) self.new }
    {
        self.number(header.timestamp_field.min(MAX_INITIAL_TIMESTAMP), 3);
    }

    #[tactic(auto, using(fields::proofs::Endian::length_big))]
    fn message_length_and_type_id(&mut self, header: ChunkHeader)
        requires { HasRoom self.old 4 }
        ensures { Added self.old (big_endian 3 header.message_length ++ big_endian 1 header.message_type_id) self.new }
    {
        self.number(header.message_length, 3);
        self.number(u32::from(header.message_type_id), 1);
    }

    fn message_stream_id(&mut self, header: ChunkHeader)
        requires { HasRoom self.old 4 }
        ensures { Added self.old (little_endian 4 header.message_stream_id) self.new }
    {
        self.number(header.message_stream_id.swap_bytes(), 4);
    }

    // Adds the fields that a chunk of this format has.
    #[tactic(auto, unfolding(chunk_header::specs::Table::header_length, chunk_header::specs::Table::field_length, fields::specs::Endian::big_endian))]
    fn message_header(&mut self, format: ChunkHeaderFormat, header: ChunkHeader)
        requires { HasRoom self.old (header_length (type_of format)) }
        ensures { Added self.old (header_bytes (message_header format header)) self.new }
    {
        match format {
            ChunkHeaderFormat::Full => {
                self.initial_timestamp(header);
                self.message_length_and_type_id(header);
                self.message_stream_id(header);
            }
            ChunkHeaderFormat::TimeDeltaWithoutMessageStreamId => {
                self.initial_timestamp(header);
                self.message_length_and_type_id(header);
            }
            ChunkHeaderFormat::TimeDeltaOnly => self.initial_timestamp(header),
            ChunkHeaderFormat::Empty => {}
        }
    }

    #[tactic(auto, using(crate::proofs::Added::added_none), unfolding(fields::specs::Endian::big_endian))]
    fn extended_timestamp(&mut self, field: u32)
        requires { HasRoom self.old (length (extended_bytes (extended «field»))) }
        ensures { Added self.old (extended_bytes (extended «field»)) self.new }
    {
        if MAX_INITIAL_TIMESTAMP <= field {
            self.number(field, 4);
        }
    }

    // Adds a chunk: what comes before its payload, and the payload.
    #[tactic(auto, using(crate::proofs::Chunk::length_header, crate::proofs::Chunk::length_head, crate::proofs::PacketLength::length_chunk, fields::proofs::Endian::length_big))]
    fn chunk(&mut self, format: ChunkHeaderFormat, header: ChunkHeader, payload: &[u8])
        requires { (header.chunk_stream_id < 64) × HasRoom self.old (length (chunk_bytes (chunk format header payload.now))) }
        ensures { Added self.old (chunk_bytes (chunk format header payload.now)) self.new }
    {
        self.number(first_byte(format, header.chunk_stream_id), 1);
        self.message_header(format, header);
        self.extended_timestamp(header.timestamp_field);
        self.payload(payload);
    }
}

impl Plan<'_> {
    // Writes the chunks at the start of the output.
    pub fn write(&self, output: &mut [u8])
        requires { length (bytes_of self.now) ≤ length output.old }
        ensures { output.new ≡ over (bytes_of self.now) output.old }
    {
        let header = self.first.header;
        let (first, rest) = self.payload.split_at(self.size.min(self.payload.len()));
        let mut cursor = Cursor { output, at: 0 };
        cursor.chunk(self.first.format, header, first);
        for piece in rest.chunks(self.size) {
            cursor.chunk(self.later, header, piece);
        }
    }
}
