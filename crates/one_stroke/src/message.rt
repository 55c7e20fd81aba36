// A message of one chunk, all of it there: a basic header of one byte, a stream that has a row, no extended time and nothing
// to refuse.
ghost use Rattle.std.specs.Prelude.{◌≡◌, ◌+◌, ◌≤◌, ◌<◌, length, take, drop, IfSome};
ghost use Rattle.fields.specs.Endian.{number, swapped};
ghost use Rattle.chunk_header.specs.Table.{header_length, type_of};
ghost use Rattle.chunk_header.specs.declared.ChunkHeaderFormat.TheVariants.{TimeDeltaWithoutMessageStreamId};
ghost use Rattle.decoding.specs.Chunk.{carried as chunk_carried};
ghost use Rattle.decoding.specs.Head.{header_in};
ghost use Rattle.held.specs.Numbers.{held_row_of, row_from};
ghost use Rattle.one_stroke.specs.Quick.{Midway, Once, Unfit, Whole};

use chunk_header::{ChunkHeaderFormat, MAX_INITIAL_TIMESTAMP, get_format, header_length};
use fields::{number_at, put_bytes, swap_bytes};
use held::{Held, HeldRow, Stage, TABLE_LENGTH, find, numbers_of, places, put_at, row_in};
use settling::message_time;

// The fields of a header after a basic header of one byte.
fn time_in(input: &[u8]) -> u32
    ensures { result ≡ number (take 3 (drop 1 input.now)) }
{
    number_at(input, 1, 3)
}

fn length_in(input: &[u8]) -> u32
    ensures { result ≡ number (take 3 (drop 4 input.now)) }
{
    number_at(input, 4, 3)
}

fn type_in(input: &[u8]) -> u32
    requires { 7 < length input.now }
    ensures { result ≡ number (take 1 (drop 7 input.now)) }
{
    input[7] as u32
}

fn stream_in(input: &[u8]) -> u32
    ensures { result ≡ swapped (number (take 4 (drop 8 input.now))) }
{
    swap_bytes(number_at(input, 8, 4))
}

// Time, length and type, in the place of the row's.
fn with_type(row: HeldRow, input: &[u8]) -> HeldRow
    requires { 7 < length input.now }
    ensures { result ≡ held_row_of (chunk_carried (header_in TimeDeltaWithoutMessageStreamId input.now) (row_from row)) }
{
    HeldRow {
        field: time_in(input),
        length: length_in(input),
        kind: type_in(input),
        ..row
    }
}

// The fields that a header has, in the place of the row's.
fn carried(format: ChunkHeaderFormat, row: HeldRow, input: &[u8]) -> HeldRow
    requires { 1 + header_length (type_of format) ≤ length input.now }
    ensures { result ≡ held_row_of (chunk_carried (header_in format input.now) (row_from row)) }
{
    match format {
        ChunkHeaderFormat::Full => HeldRow {
            stream: stream_in(input),
            ..with_type(row, input)
        },
        ChunkHeaderFormat::TimeDeltaWithoutMessageStreamId => with_type(row, input),
        ChunkHeaderFormat::TimeDeltaOnly => HeldRow {
            field: time_in(input),
            ..row
        },
        ChunkHeaderFormat::Empty => row,
    }
}

// Whether the decoder is not between messages, or there is no input, or too short a buffer.
// Kept: tests of the numbers that are lent, here and in piece.rt, as `Midway` and `Outside` in specs/Quick.antt have them.
fn is_midway(held: &[u32; 24], length: usize, lent: usize) -> bool
    ensures { Midway result held.now length lent }
{
    held[places::CLOSED] != 0
        || held[places::STAGE] != 0
        || held[places::ID] != 0
        || lent < held[places::ROOM] as usize
        || length == 0
}

// Whether a header has an extended time or is refused, or its message has no byte, or is not all there in one chunk.
fn is_unfit(header: HeldRow, room: u32, size: u32, rest: usize) -> bool
    ensures { Unfit result header room size rest }
{
    header.field == MAX_INITIAL_TIMESTAMP
        || header.length == 0
        || room < header.length
        || size < header.length
        || rest < header.length as usize
}

// What is seen of such a chunk: where its payload starts, its format, the place of its row, that row, and the header with the
// message's time.
#[derive(Clone, Copy, Debug, PartialEq, Eq)]
pub struct Seen {
    pub start: usize,
    pub format: ChunkHeaderFormat,
    pub place: u32,
    pub before: HeldRow,
    pub header: HeldRow,
}

fn see(held: &[u32; 24], rows: &[u32; TABLE_LENGTH], input: &[u8]) -> Option<Seen>
    requires { 0 < length input.now }
    ensures { IfSome result (λ s. Whole s held.now rows.now input.now) }
{
    let byte = input[0];
    let format = get_format(byte);
    let start = 1 + header_length(format);
    if byte % 64 < 2 || input.len() < start {
        return None;
    }
    let place = find(rows, (byte % 64) as u32)?;
    let before = row_in(rows, place);
    let header = carried(format, before, input);
    if is_unfit(
        header,
        held[places::ROOM],
        held[places::SIZE],
        input.len() - start,
    ) {
        return None;
    }
    let time = message_time(format, before.time, header.field);
    Some(Seen {
        start,
        format,
        place: place as u32,
        before,
        header: HeldRow { time, ..header },
    })
}

// Takes it, where it is one, and says how many bytes it used; where it is none, nothing has changed.
pub fn at_once(
    held: &mut [u32; 24],
    rows: &mut [u32; TABLE_LENGTH],
    input: &[u8],
    payload: &mut [u8],
) -> Option<usize>
    ensures { Once result held.old rows.old input.now payload.old held.new rows.new payload.new }
{
    if is_midway(held, input.len(), payload.len()) {
        return None;
    }
    let Seen {
        start,
        format,
        place,
        before,
        header,
    } = see(held, rows, input)?;
    let end = start + header.length as usize;
    *held = numbers_of(Held {
        room: held[places::ROOM],
        size: held[places::SIZE],
        closed: 0,
        stage: Stage::Csid,
        format,
        place,
        left: 0,
        id: 0,
        got: 0,
        before,
        header,
    });
    put_at(rows, place, header);
    put_bytes(&input[start..end], payload, 0);
    Some(end)
}
