// A header that is whole, and the fields that may come before it is.
ghost use Rattle.std.specs.Prelude.{◌≡◌, not, ◌&&◌, ◌==◌, nat_lt, ◌≢◌, Ok};
ghost use Rattle.chunk_header.specs.Limits.{max_field};
ghost use Rattle.chunk_header.specs.Table.{is_full};
ghost use Rattle.chunk_meaning.specs.Meaning.{first_refusal, first_time, later_refusal, repeats as message_repeats};
ghost use Rattle.byte_machine.specs.Header.{extended_next, lacks, length_next, stage_of as field_stage, stream_next, timestamp_next, type_next, whole};
ghost use Rattle.byte_machine.specs.Reader.{at, go};
ghost use Rattle.held.specs.Done.{done_of, meant_by, refused_by, told};
ghost use Rattle.held.specs.Numbers.{reader_from, row_from, setting_in};
ghost use Rattle.held.specs.Stages.{stage_of};
ghost use Rattle.settling.specs.Opened.{opened_to};

use crate::refusals::is_full;
use chunk_header::{ChunkHeaderFormat, HeaderField, MAX_INITIAL_TIMESTAMP, field_length};
use held::{ChunkRefusal, Done, Event, Held, HeldRow, NOWHERE, Stage, goes};

// The payload of a chunk. A message of no bytes ends here.
#[tactic(auto, unfolding(byte_machine::specs::Header::opens))]
fn opened(h: Held, time: u32, got: u32) -> Done
    ensures { Ok (meant_by result) ≡ done_of h (opened_to h time got) }
{
    let header = HeldRow { time, ..h.header };
    if header.length == 0 {
        return Done {
            held: Held {
                stage: Stage::Csid,
                id: 0,
                got: 0,
                header,
                ..h
            },
            event: Event::Message,
            place: h.place,
        };
    }
    let left = h.size.min(header.length.saturating_sub(got));
    Done {
        held: Held {
            stage: Stage::MessagePayload,
            got,
            left,
            header,
            ..h
        },
        event: Event::Go,
        place: NOWHERE,
    }
}

// Whether a header repeats its message's.
fn repeats(message: HeldRow, header: HeldRow, time: u32) -> bool
    ensures { result ≡ message_repeats (row_from message) (row_from header) time }
{
    header.length == message.length
        && header.kind == message.kind
        && header.stream == message.stream
        && time == message.time
}

// What is refused of a later chunk, and of a first one.
#[tactic(auto, unfolding(chunk_meaning::specs::Meaning::later_refusal))]
fn check_later(h: Held, time: u32) -> Result<(), ChunkRefusal>
    ensures { refused_by result ≡ later_refusal h.format (row_from h.before) (row_from h.header) time }
{
    if is_full(h.format) && !repeats(h.before, h.header, time) {
        return Err(ChunkRefusal::OtherHeader);
    }
    Ok(())
}

#[tactic(auto, unfolding(chunk_meaning::specs::Meaning::first_refusal))]
fn check_first(h: Held, time: u32) -> Result<(), ChunkRefusal>
    ensures { refused_by result ≡ first_refusal h.format (row_from h.header) time h.room }
{
    if is_small_extended(h, time) {
        return Err(ChunkRefusal::SmallExtendedDelta);
    }
    if h.room < h.header.length {
        return Err(ChunkRefusal::LengthOverRoom);
    }
    Ok(())
}

fn is_small_extended(h: Held, time: u32) -> bool
    ensures { result ≡ (not (is_full h.format) && (h.header.field == max_field && nat_lt time max_field)) }
{
    !is_full(h.format) && h.header.field == MAX_INITIAL_TIMESTAMP && time < MAX_INITIAL_TIMESTAMP
}

// The time of a message, by what its first chunk says of it.
pub fn message_time(format: ChunkHeaderFormat, before: u32, time: u32) -> u32
    ensures { result ≡ first_time format before time }
{
    if is_full(format) {
        return time;
    }
    before.wrapping_add(time)
}

// A header that is whole, with the number that it says of the time.
#[tactic(auto, using(held::proofs::Refusals::is_refused), unfolding(byte_machine::specs::Header::whole))]
pub fn settled(h: Held, time: u32) -> Result<Done, ChunkRefusal>
    ensures { told result ≡ done_of h (whole (setting_in h) (reader_from h) time) }
{
    if h.id == 0 {
        check_first(h, time)?;
        return Ok(opened(h, message_time(h.format, h.before.time, time), 0));
    }
    check_later(h, time)?;
    Ok(opened(h, h.before.time, h.got))
}

#[tactic(auto, unfolding(byte_machine::specs::Header::extended_next))]
pub fn extended_next(h: Held) -> Result<Done, ChunkRefusal>
    ensures { told result ≡ done_of h (extended_next (setting_in h) (reader_from h)) }
{
    if h.header.field == MAX_INITIAL_TIMESTAMP {
        let stage = Stage::ExtendedTimestamp {
            gathered: 0,
            lacks: 4,
        };
        return Ok(goes(h, stage));
    }
    settled(h, h.header.field)
}

// The stage before the first byte of a field.
fn stage_at(field: HeaderField, lacks: u32) -> Stage
    ensures { stage_of result ≡ field_stage field lacks }
{
    let gathered = 0;
    match field {
        HeaderField::Timestamp => Stage::InitialTimestamp { gathered, lacks },
        HeaderField::MessageLength => Stage::MessageLength { gathered, lacks },
        HeaderField::MessageTypeId => Stage::MessageTypeId,
        HeaderField::MessageStreamId => Stage::MessageStreamId { gathered, lacks },
    }
}

// A field comes next, or is passed over where the format does not have it: then what is after it comes.
// Kept: a function a field below, as one that calls itself by the field took 463 ns and not 226 for 16 bytes singly (bar 1.2).
fn field_or<F: FnOnce(Held) -> Result<Done, ChunkRefusal>>(
    h: Held,
    field: HeaderField,
    after: F,
) -> Result<Done, ChunkRefusal>
    requires { F.pre after h }
    ensures passes { lacks (reader_from h) field ≡ 0 → F.post after h result }
    ensures stops { lacks (reader_from h) field ≢ 0 → told result ≡ done_of h (go (at (reader_from h) (field_stage field (lacks (reader_from h) field)))) }
{
    let lacks = field_length(h.format, field);
    if lacks == 0 {
        return after(h);
    }
    Ok(goes(h, stage_at(field, lacks)))
}

#[tactic(auto, unfolding(byte_machine::specs::Header::stream_next))]
pub fn stream_next(h: Held) -> Result<Done, ChunkRefusal>
    ensures { told result ≡ done_of h (stream_next (setting_in h) (reader_from h)) }
{
    field_or(h, HeaderField::MessageStreamId, extended_next)
}

#[tactic(auto, unfolding(byte_machine::specs::Header::type_next))]
pub fn type_next(h: Held) -> Result<Done, ChunkRefusal>
    ensures { told result ≡ done_of h (type_next (setting_in h) (reader_from h)) }
{
    field_or(h, HeaderField::MessageTypeId, stream_next)
}

#[tactic(auto, unfolding(byte_machine::specs::Header::length_next))]
pub fn length_next(h: Held) -> Result<Done, ChunkRefusal>
    ensures { told result ≡ done_of h (length_next (setting_in h) (reader_from h)) }
{
    field_or(h, HeaderField::MessageLength, type_next)
}

#[tactic(auto, unfolding(byte_machine::specs::Header::timestamp_next))]
pub fn timestamp_next(h: Held) -> Result<Done, ChunkRefusal>
    ensures { told result ≡ done_of h (timestamp_next (setting_in h) (reader_from h)) }
{
    field_or(h, HeaderField::Timestamp, length_next)
}
