// The decoder by value: its calls lend what it holds to the calls in place, and hand it back (chunk_io/deserializer.rs of
// rml_rtmp).
#![tactic(auto)]

ghost use Rattle.std.specs.Prelude.{◌≡◌};
ghost use Rattle.decoding.specs.Call.{next};
ghost use Rattle.decoding.specs.Told.{made, told};
ghost use Rattle.one_stroke.specs.Lent.{Lent};
ghost use Rattle.in_place.specs.Answer.{LentSize, answer_of, size_of};
ghost use Rattle.deserializer.specs.Meant.{meant};

pub use in_place::{Answer, Message, Refusal};
use in_place::{TABLE_LENGTH, get_max_chunk_size, make, next_message, set_max_chunk_size};

// A decoder: the 24 numbers that it holds, and the table of rows.
#[derive(Clone, Copy, Debug, PartialEq, Eq)]
pub struct ChunkDeserializer {
    held: [u32; 24],
    rows: [u32; TABLE_LENGTH],
}

// What a call answers, and the decoder handed back beside it.
#[derive(Clone, Copy, Debug, PartialEq, Eq)]
pub struct Decoded {
    pub deserializer: ChunkDeserializer,
    pub answer: Answer,
}

// What making a decoder, or telling it a size, answers, and the decoder handed back beside it.
#[derive(Clone, Copy, Debug, PartialEq, Eq)]
pub struct Told {
    pub deserializer: ChunkDeserializer,
    pub telling: Result<(), Refusal>,
}

impl ChunkDeserializer {
    // A decoder for messages of at most `room` bytes.
    pub fn new(room: u32) -> Told
        ensures { LentSize (size_of result.telling) result.deserializer.held result.deserializer.rows (made room) }
    {
        let mut held = [0; 24];
        let mut rows = [0; TABLE_LENGTH];
        let telling = make(&mut held, &mut rows, room);
        Told {
            deserializer: ChunkDeserializer { held, rows },
            telling,
        }
    }

    // Takes a prefix of `input`, up to the end of the next message at most. The payload of a message is the first bytes of
    // `payload`, where the same buffer was lent untouched since the message's first byte.
    pub fn get_next_message(self, input: &[u8], payload: &mut [u8]) -> Decoded
        ensures { Lent (answer_of result.answer) result.deserializer.held result.deserializer.rows payload.new (next (meant self) input.now payload.old) }
    {
        let mut held = self.held;
        let mut rows = self.rows;
        let answer = next_message(&mut held, &mut rows, input, payload);
        Decoded {
            deserializer: ChunkDeserializer { held, rows },
            answer,
        }
    }

    // The chunk size of the peer, told between messages.
    pub fn set_max_chunk_size(self, new_size: u32) -> Told
        ensures { LentSize (size_of result.telling) result.deserializer.held result.deserializer.rows (told (meant self) new_size) }
    {
        let mut held = self.held;
        let rows = self.rows;
        let telling = set_max_chunk_size(&mut held, new_size);
        Told {
            deserializer: ChunkDeserializer { held, rows },
            telling,
        }
    }

    // The chunk size in force.
    pub fn get_max_chunk_size(self) -> u32
        ensures { result ≡ (meant self).setting.size }
    {
        get_max_chunk_size(&self.held)
    }
}
