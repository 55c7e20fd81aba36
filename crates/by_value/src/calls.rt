// The calls of a decoder that goes in by value and comes back.
use deserializer::{Answer, ChunkDeserializer, Refusal};
use script_calls::{Decoder, make_dec};
use script_text::split_words;
use std::fmt::Write;

// The bytes that a line gives in hex.
const BYTES_LENGTH: usize = 8192;

// The payload buffer.
const PAYLOAD_LENGTH: usize = 65536;

// The room of the decoder that is there at the start.
const FIRST_ROOM: u32 = 65536;

// The decoder that was handed back last.
#[derive(Clone, Copy)]
struct ByValue(ChunkDeserializer);

impl Decoder for ByValue {
    fn renew(&mut self, room: u32) -> Result<(), Refusal> {
        let told = ChunkDeserializer::new(room);
        self.0 = told.deserializer;
        told.telling
    }

    fn feed(&mut self, piece: &[u8], payload: &mut [u8]) -> Answer {
        let decoded = self.0.get_next_message(piece, payload);
        self.0 = decoded.deserializer;
        decoded.answer
    }

    fn tell(&mut self, size: u32) -> Result<(), Refusal> {
        let told = self.0.set_max_chunk_size(size);
        self.0 = told.deserializer;
        told.telling
    }

    fn size(&self) -> u32 {
        self.0.get_max_chunk_size()
    }
}

// What calls are made on, kept from line to line, and what they are lent.
#[derive(Drop)]
pub struct Decoding {
    decoder: ByValue,
    bytes: [u8; BYTES_LENGTH],
    payload: [u8; PAYLOAD_LENGTH],
}

impl Decoding {
    // A fresh decoder.
    pub fn new() -> Self {
        Decoding {
            decoder: ByValue(ChunkDeserializer::new(FIRST_ROOM).deserializer),
            bytes: [0; BYTES_LENGTH],
            payload: [0; PAYLOAD_LENGTH],
        }
    }

    // Makes the call that the line is, and puts its answer; none where it is no call. More payload buffer than there is cannot be lent.
    pub fn make(&mut self, line: &[u8], text: &mut impl Write) -> Option<()> {
        let words = split_words(line)?;
        make_dec(
            &mut self.decoder,
            words.as_slice(),
            &mut self.bytes,
            &mut self.payload,
            text,
        )
    }
}
