// A byte of a field.
ghost use Rattle.std.specs.Prelude.{◌≡◌, ◌-◌};
ghost use Rattle.byte_machine.specs.Step.{extended_field_step, gathered as machine_gathered, length_field_step, stream_field_step, timestamp_field_step, type_field_step};
ghost use Rattle.held.specs.Done.{done_of, told};
ghost use Rattle.held.specs.Numbers.{reader_from, setting_in};

use fields::swap_bytes;
use held::{ChunkRefusal, Done, Held, HeldRow, Stage, goes};
use settling::{extended_next, length_next, settled, stream_next, type_next};

// One byte more of a number, and how many it lacks then.
fn with_byte(before: u32, lacks: u32, byte: u8) -> (u32, u32)
    ensures number { result.0 ≡ machine_gathered before byte }
    ensures left { result.1 ≡ lacks - 1 }
{
    (
        before % 16777216 * 256 + byte as u32,
        lacks.saturating_sub(1),
    )
}

// The header with a field that is whole goes on to the next one, and a field that is not is kept.
// Kept: a function a field, as each is put elsewhere, waits in a stage of its own and goes on to another one; `with_byte` is what they share.
#[tactic(auto, unfolding(byte_machine::specs::Step::timestamp_field_step))]
pub fn timestamp_byte(h: Held, before: u32, lacks: u32, byte: u8) -> Result<Done, ChunkRefusal>
    ensures { told result ≡ done_of h (timestamp_field_step (setting_in h) (reader_from h) before lacks byte) }
{
    let (gathered, lacks) = with_byte(before, lacks, byte);
    if lacks != 0 {
        return Ok(goes(h, Stage::InitialTimestamp { gathered, lacks }));
    }
    let header = HeldRow {
        field: gathered,
        ..h.header
    };
    length_next(Held { header, ..h })
}

#[tactic(auto, unfolding(byte_machine::specs::Step::length_field_step))]
pub fn length_byte(h: Held, before: u32, lacks: u32, byte: u8) -> Result<Done, ChunkRefusal>
    ensures { told result ≡ done_of h (length_field_step (setting_in h) (reader_from h) before lacks byte) }
{
    let (gathered, lacks) = with_byte(before, lacks, byte);
    if lacks != 0 {
        return Ok(goes(h, Stage::MessageLength { gathered, lacks }));
    }
    let header = HeldRow {
        length: gathered,
        ..h.header
    };
    type_next(Held { header, ..h })
}

#[tactic(auto, unfolding(byte_machine::specs::Step::type_field_step))]
pub fn type_byte(h: Held, byte: u8) -> Result<Done, ChunkRefusal>
    ensures { told result ≡ done_of h (type_field_step (setting_in h) (reader_from h) byte) }
{
    let header = HeldRow {
        kind: byte as u32,
        ..h.header
    };
    stream_next(Held { header, ..h })
}

#[tactic(auto, unfolding(byte_machine::specs::Step::stream_field_step))]
pub fn stream_byte(h: Held, before: u32, lacks: u32, byte: u8) -> Result<Done, ChunkRefusal>
    ensures { told result ≡ done_of h (stream_field_step (setting_in h) (reader_from h) before lacks byte) }
{
    let (gathered, lacks) = with_byte(before, lacks, byte);
    if lacks != 0 {
        return Ok(goes(h, Stage::MessageStreamId { gathered, lacks }));
    }
    let header = HeldRow {
        stream: swap_bytes(gathered),
        ..h.header
    };
    extended_next(Held { header, ..h })
}

#[tactic(auto, unfolding(byte_machine::specs::Step::extended_field_step))]
pub fn extended_byte(h: Held, before: u32, lacks: u32, byte: u8) -> Result<Done, ChunkRefusal>
    ensures { told result ≡ done_of h (extended_field_step (setting_in h) (reader_from h) before lacks byte) }
{
    let (gathered, lacks) = with_byte(before, lacks, byte);
    if lacks != 0 {
        return Ok(goes(h, Stage::ExtendedTimestamp { gathered, lacks }));
    }
    settled(h, gathered)
}
