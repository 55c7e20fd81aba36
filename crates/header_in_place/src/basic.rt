// The basic header.
ghost use Rattle.std.specs.Prelude.{◌≡◌, [], ◌∷◌};
ghost use Rattle.byte_machine.specs.Look.{look};
ghost use Rattle.byte_machine.specs.Step.{basic_by, claims as machine_claims, known as machine_known, named as machine_named};
ghost use Rattle.chunk_header.specs.Basic.{csid};
ghost use Rattle.chunk_header.specs.Table.{format_of};
ghost use Rattle.held.specs.Done.{done_of, meant_by, told};
ghost use Rattle.held.specs.Numbers.{place_in, reader_from, row_from, setting_in};
ghost use Rattle.held.specs.Stages.{stage_of};

use chunk_header::ChunkHeaderFormat;
use held::{
    ChunkRefusal, Done, Event, Held, HeldRow, NOWHERE, Stage, TABLE_LENGTH, claimed, find,
    first_free, goes, row_in,
};
use settling::{check_basic, timestamp_next};

// The format that a first byte says.
// Kept: a twin of `get_format`, whose byte this is not, as any number may lie in what is lent (`named` in byte_machine's specs/Step.antt).
#[tactic(auto, unfolding(chunk_header::specs::Table::format_of))]
fn format_in(first: u32) -> ChunkHeaderFormat
    ensures { result ≡ format_of first }
{
    match first / 64 {
        0 => ChunkHeaderFormat::Full,
        1 => ChunkHeaderFormat::TimeDeltaWithoutMessageStreamId,
        2 => ChunkHeaderFormat::TimeDeltaOnly,
        _ => ChunkHeaderFormat::Empty,
    }
}

// A chunk of a stream that has a row.
fn known(h: Held, format: ChunkHeaderFormat, row: HeldRow, place: u32) -> Result<Done, ChunkRefusal>
    ensures { told result ≡ done_of h (machine_known (setting_in h) (reader_from h) format (row_from row) place) }
{
    timestamp_next(Held {
        format,
        place,
        left: 0,
        before: row,
        header: row,
        ..h
    })
}

// A chunk of a stream that claims a free row, if there is one.
fn claims(h: Held, format: ChunkHeaderFormat, id: u32, free: Option<u32>) -> Done
    ensures { Ok (meant_by result) ≡ done_of h (machine_claims (reader_from h) format id (place_in free)) }
{
    let row = claimed(id);
    let place = free.unwrap_or(NOWHERE);
    let held = Held {
        stage: Stage::InitialTimestamp {
            gathered: 0,
            lacks: 3,
        },
        format,
        place,
        left: 0,
        before: row,
        header: row,
        ..h
    };
    Done {
        held,
        event: Event::Go,
        place,
    }
}

// The last byte of a basic header that says this id.
#[tactic(auto, using(held::proofs::Refusals::is_refused), unfolding(byte_machine::specs::Step::named))]
fn named(h: Held, rows: &[u32; TABLE_LENGTH], first: u32, id: u32) -> Result<Done, ChunkRefusal>
    ensures { told result ≡ done_of h (machine_named (setting_in h) (look rows.now id) (reader_from h) (format_of first) id) }
{
    let format = format_in(first);
    let place = find(rows, id);
    let free = first_free(rows);
    check_basic(
        format,
        place.is_some(),
        free.is_some(),
        h.id != 0,
        h.id == id,
    )?;
    match place {
        Some(place) => known(h, format, row_in(rows, place), place as u32),
        None => Ok(claims(h, format, id, free.map(|place| place as u32))),
    }
}

// A basic header of one byte, of two and of three: an id, or more of it has to come.
// Kept: a function a length, as a first byte that is lent may be any number, and so is no byte of a slice.
#[tactic(auto, unfolding(chunk_header::specs::Basic::csid))]
pub fn one(a: u32) -> Option<u32>
    ensures { result ≡ csid (a ∷ []) }
{
    match a % 64 {
        0 | 1 => None,
        n => Some(n),
    }
}

#[tactic(auto, unfolding(chunk_header::specs::Basic::csid))]
pub fn two(a: u32, b: u8) -> Option<u32>
    ensures { result ≡ csid (a ∷ b ∷ []) }
{
    match a % 64 {
        0 => Some(b as u32 + 64),
        1 => None,
        n => Some(n),
    }
}

#[tactic(auto, unfolding(chunk_header::specs::Basic::csid))]
pub fn three(a: u32, b: u8, c: u8) -> Option<u32>
    ensures { result ≡ csid (a ∷ b ∷ c ∷ []) }
{
    match a % 64 {
        0 => Some(b as u32 + 64),
        1 => Some(256 * c as u32 + b as u32 + 64),
        n => Some(n),
    }
}

// A basic header so far: an id, or kept until more of it has come. Inlined, a header in bytes takes a tenth fewer instructions.
#[inline(always)]
pub fn basic(
    h: Held,
    rows: &[u32; TABLE_LENGTH],
    first: u32,
    read: Option<u32>,
    kept: Stage,
) -> Result<Done, ChunkRefusal>
    ensures { told result ≡ done_of h (basic_by read (setting_in h) (look rows.now) (reader_from h) (format_of first) (stage_of kept)) }
{
    let Some(id) = read else {
        return Ok(goes(h, kept));
    };
    named(h, rows, first, id)
}
