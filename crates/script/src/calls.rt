// The calls that lines are.
use script_bodies::{make_body, make_control, make_settings, make_time};
use script_calls::{InPlace, make_dec, make_enc};
use script_lines::LONGEST_LINE;
use script_plans::{Plan, make_plan};
use script_text::split_words;
use serializer::ChunkSerializer;
use std::fmt::Write;

// The bytes that a line gives in hex: no line is long enough for more.
pub const BYTES_LENGTH: usize = 131072;

// The output that a call writes to: the most that a line may lend.
pub const OUTPUT_LENGTH: usize = 131072;

// The payload buffer that the decoder writes to: the most that a line may lend.
pub const PAYLOAD_LENGTH: usize = 262144;

// The room of the decoder that is there at the start.
const FIRST_ROOM: u32 = 65536;

// What calls are made on, kept from line to line, and what they are lent.
#[derive(Drop)]
pub struct Calls<'a> {
    encoder: ChunkSerializer,
    decoder: InPlace,
    plan: &'a mut Plan,
    bytes: [u8; BYTES_LENGTH],
    output: [u8; OUTPUT_LENGTH],
    payload: [u8; PAYLOAD_LENGTH],
}

impl<'a> Calls<'a> {
    // A fresh encoder and a fresh decoder.
    pub fn new(plan: &'a mut Plan) -> Self {
        Calls {
            encoder: ChunkSerializer::new(),
            decoder: InPlace::new(FIRST_ROOM),
            plan,
            bytes: [0; BYTES_LENGTH],
            output: [0; OUTPUT_LENGTH],
            payload: [0; PAYLOAD_LENGTH],
        }
    }

    // Makes the call that the line is, and puts its answer; none where it is no call, as a line that is too long.
    pub fn make(&mut self, line: &[u8], text: &mut impl Write) -> Option<()> {
        if LONGEST_LINE < line.len() {
            return None;
        }
        let words = split_words(line)?;
        let words = words.as_slice();
        let bytes = &mut self.bytes;
        let output = &mut self.output;
        match *words.first()? {
            "enc" => make_enc(&mut self.encoder, words, bytes, output, text),
            "dec" => make_dec(&mut self.decoder, words, bytes, &mut self.payload, text),
            "time" => make_time(words, text),
            "control" => make_control(words, bytes, output, text),
            "settings" => make_settings(words, bytes, output, text),
            "plan" => make_plan(self.plan, words, bytes, text),
            "body" => make_body(words, bytes, output, text),
            _ => None,
        }
    }
}
