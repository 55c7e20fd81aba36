// Decoders that calls are made on.
use in_place::{Answer, Refusal, TABLE_LENGTH};

// A decoder, which is kept from call to call.
pub trait Decoder {
    // Puts a new one in its place, for messages of at most `room` bytes.
    fn renew(&mut self, room: u32) -> Result<(), Refusal>;

    // Takes a prefix of the piece, up to the end of the next message at most.
    fn feed(&mut self, piece: &[u8], payload: &mut [u8]) -> Answer;

    // Tells it the chunk size of the peer.
    fn tell(&mut self, size: u32) -> Result<(), Refusal>;

    // The chunk size in force.
    fn size(&self) -> u32;
}

// The numbers and the table of a decoder in place.
#[derive(Drop)]
pub struct InPlace {
    held: [u32; 24],
    rows: [u32; TABLE_LENGTH],
}

impl InPlace {
    // For messages of at most `room` bytes. One that was refused is closed, and says so when it is called.
    pub fn new(room: u32) -> Self {
        let mut held = [0; 24];
        let mut rows = [0; TABLE_LENGTH];
        let _ = in_place::make(&mut held, &mut rows, room);
        InPlace { held, rows }
    }
}

impl Decoder for InPlace {
    fn renew(&mut self, room: u32) -> Result<(), Refusal> {
        in_place::make(&mut self.held, &mut self.rows, room)
    }

    fn feed(&mut self, piece: &[u8], payload: &mut [u8]) -> Answer {
        in_place::next_message(&mut self.held, &mut self.rows, piece, payload)
    }

    fn tell(&mut self, size: u32) -> Result<(), Refusal> {
        in_place::set_max_chunk_size(&mut self.held, size)
    }

    fn size(&self) -> u32 {
        in_place::get_max_chunk_size(&self.held)
    }
}
