// A byte of a header.
ghost use Rattle.std.specs.Prelude.{◌≡◌};
ghost use Rattle.held.specs.Done.{done_of, told};
ghost use Rattle.header_in_place.specs.Byte.{Left, step_in};
ghost use Rattle.held.specs.Numbers.{decode, meant};

use crate::basic::{basic, one, three, two};
use crate::gather::{extended_byte, length_byte, stream_byte, timestamp_byte, type_byte};
use held::{
    ChunkRefusal, Done, Event, Held, Stage, TABLE_LENGTH, held_in, numbers_of, put_at, shut,
};

// By the stage. A byte of a payload never comes here.
fn step(h: Held, rows: &[u32; TABLE_LENGTH], byte: u8) -> Result<Done, ChunkRefusal>
    ensures { told result ≡ done_of h (step_in (meant h rows.now) byte) }
{
    match h.stage {
        Stage::Csid => {
            let first = byte as u32;
            basic(h, rows, first, one(first), Stage::CsidSecond { first })
        }
        Stage::CsidSecond { first } => {
            let kept = Stage::CsidThird {
                first,
                second: byte,
            };
            basic(h, rows, first, two(first, byte), kept)
        }
        Stage::CsidThird { first, second } => {
            basic(h, rows, first, three(first, second, byte), h.stage)
        }
        Stage::InitialTimestamp { gathered, lacks } => timestamp_byte(h, gathered, lacks, byte),
        Stage::MessageLength { gathered, lacks } => length_byte(h, gathered, lacks, byte),
        Stage::MessageTypeId => type_byte(h, byte),
        Stage::MessageStreamId { gathered, lacks } => stream_byte(h, gathered, lacks, byte),
        Stage::ExtendedTimestamp { gathered, lacks } => extended_byte(h, gathered, lacks, byte),
        Stage::MessagePayload => Err(ChunkRefusal::Guard),
    }
}

// Takes a byte of a header. Where it is refused, the decoder is then closed with the refusal's number.
pub fn take_byte(
    held: &mut [u32; 24],
    rows: &mut [u32; TABLE_LENGTH],
    byte: u8,
) -> Result<Event, ChunkRefusal>
    ensures { Left result held.new rows.new (decode held.old rows.old) (step_in (decode held.old rows.old) byte) }
{
    let h = held_in(held);
    match step(h, rows, byte) {
        Ok(done) => {
            *held = numbers_of(done.held);
            put_at(rows, done.place, done.held.header);
            Ok(done.event)
        }
        Err(refusal) => {
            *held = numbers_of(shut(h, refusal.number()));
            Err(refusal)
        }
    }
}
