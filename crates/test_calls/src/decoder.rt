// A decoder in place, with numbers and a table of its own.
ghost use Rattle.std.specs.Prelude.{◌≡◌, Result, is_ok};
ghost use Rattle.decoding.specs.Call.{next};
ghost use Rattle.decoding.specs.Told.{made};
ghost use Rattle.held.specs.Numbers.{decode, held_in};
ghost use Rattle.one_stroke.specs.Lent.{Lent};
ghost use Rattle.in_place.specs.Answer.{LentTold, Stands, answer_of, size_of};

use in_place::{
    Answer, Refusal, TABLE_LENGTH, get_max_chunk_size, make, next_message, set_max_chunk_size,
};

#[derive(Drop)]
pub struct Decoder {
    held: [u32; 24],
    rows: [u32; TABLE_LENGTH],
}

impl Decoder {
    // For messages of at most `room` bytes. One that was refused is closed, and says so when it is called.
    pub fn new(room: u32) -> Self
        ensures { Stands result.held result.rows (made room).deserializer }
    {
        let mut decoder = Decoder {
            held: [0; 24],
            rows: [0; TABLE_LENGTH],
        };
        let _ = make(&mut decoder.held, &mut decoder.rows, room);
        decoder
    }

    pub fn next_message(&mut self, input: &[u8], payload: &mut [u8]) -> Answer
        ensures { Lent (answer_of result) self.new.held self.new.rows payload.new (next (decode self.old.held self.old.rows) input.now payload.old) }
    {
        next_message(&mut self.held, &mut self.rows, input, payload)
    }

    pub fn set_max_chunk_size(&mut self, size: u32) -> Result<(), Refusal>
        ensures told { LentTold (size_of result) self.old.held size self.new.held }
        ensures table { self.new.rows ≡ self.old.rows }
    {
        set_max_chunk_size(&mut self.held, size)
    }

    // Whether a size may be told: not inside a message. The size in force is told once more, which changes nothing.
    pub fn may_tell(&mut self) -> bool
        ensures { (told : Result _ _) × LentTold (size_of told) self.old.held (held_in self.old.held).size self.new.held × (result ≡ is_ok told) }
    {
        let size = get_max_chunk_size(&self.held);
        self.set_max_chunk_size(size).is_ok()
    }
}
