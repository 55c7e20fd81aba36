// Making a decoder in what is lent, and telling it a chunk size.
ghost use Rattle.std.specs.Prelude.{[], ◌≡◌};
ghost use Rattle.decoding.specs.Told.{between as told_between, fresh as told_fresh, made, refused as told_refused, sized};
ghost use Rattle.held.specs.Numbers.{again, decode, encode, held_in, reader_from};
ghost use Rattle.in_place.specs.Answer.{LentSize, LentTold, Stands, size_of};

use crate::refusal::Refusal;
use chunk_header::{ChunkHeaderFormat, INITIAL_MAX_CHUNK_SIZE, LARGEST_CHUNK_SIZE, LARGEST_ROOM};
use held::{Held, ROWS, Stage, TABLE_LENGTH, claimed, held_in, numbers_of, places, renew};

// A decoder to which nothing has come.
fn fresh(held: &mut [u32; 24], rows: &mut [u32; TABLE_LENGTH], room: u32, closed: u32)
    ensures { Stands held.new rows.new (told_fresh room closed) }
{
    let row = claimed(0);
    *held = numbers_of(Held {
        room,
        size: INITIAL_MAX_CHUNK_SIZE,
        closed,
        stage: Stage::Csid,
        format: ChunkHeaderFormat::Full,
        place: ROWS as u32,
        left: 0,
        id: 0,
        got: 0,
        before: row,
        header: row,
    });
    *rows = [0; TABLE_LENGTH];
}

// A decoder for messages of at most `room` bytes, whatever was in the arrays.
#[tactic(auto, unfolding(decoding::specs::Told::made))]
pub fn make(held: &mut [u32; 24], rows: &mut [u32; TABLE_LENGTH], room: u32) -> Result<(), Refusal>
    ensures { LentSize (size_of result) held.new rows.new (made room) }
{
    let told = if room == 0 || LARGEST_ROOM < room {
        Err(Refusal::ROOM_OUTSIDE_LIMITS)
    } else {
        Ok(())
    };
    let closed = match told {
        Ok(()) => 0,
        Err(refusal) => refusal.number,
    };
    fresh(held, rows, room, closed);
    told
}

// No byte of a message has come that has not ended.
#[tactic(auto, using(crate::proofs::Sizes::start_from))]
fn between(held: &[u32; 24]) -> bool
    ensures { result ≡ told_between (reader_from (held_in held.now)) }
{
    held[places::STAGE] == 0 && held[places::ID] == 0
}

// The decoder with another size.
fn resize(held: &mut [u32; 24], size: u32)
    ensures { held.new ≡ encode (sized (decode held.old []) size) }
{
    *held = numbers_of(Held {
        size,
        ..held_in(held)
    });
}

fn refused(held: &mut [u32; 24], refusal: Refusal) -> Result<(), Refusal>
    ensures { (size_of result ≡ told_refused refusal.number) × (held.new ≡ again held.old) }
{
    renew(held);
    Err(refusal)
}

// The chunk size of the peer, told between messages. No row counts, and none is touched.
pub fn set_max_chunk_size(held: &mut [u32; 24], new_size: u32) -> Result<(), Refusal>
    ensures { LentTold (size_of result) held.old new_size held.new }
{
    let closed = held[places::CLOSED];
    if closed != 0 {
        return refused(held, Refusal { number: closed });
    }
    if new_size == 0 {
        return refused(held, Refusal::CHUNK_SIZE_ZERO);
    }
    if LARGEST_CHUNK_SIZE < new_size {
        return refused(held, Refusal::CHUNK_SIZE_TOO_LARGE);
    }
    if between(held) {
        resize(held, new_size);
        return Ok(());
    }
    refused(held, Refusal::INSIDE_MESSAGE)
}

// The chunk size in force.
pub fn get_max_chunk_size(held: &[u32; 24]) -> u32
    ensures { result ≡ (held_in held.now).size }
{
    held[places::SIZE]
}
