// A decoder as numbers.
ghost use Rattle.std.specs.Prelude.{◌≡◌, [], ◌+◌, ◌<◌};
ghost use Rattle.chunk_meaning.specs.Stored.{claimed};
ghost use Rattle.held.specs.Numbers.{again, format_from, held_in, held_row_at, held_row_of, meant, numbers_of};
ghost use Rattle.held.specs.Done.{shut_with};

use crate::places;
use crate::stage::{Stage, stage_in, stage_numbers};
use chunk_header::ChunkHeaderFormat;

// A row of the table.
#[derive(Clone, Copy, Debug, PartialEq, Eq)]
pub struct HeldRow {
    pub id: u32,
    pub time: u32,
    pub field: u32,
    pub length: u32,
    pub kind: u32,
    pub stream: u32,
}

// A decoder without its table; specs/Numbers.antt says which number stands for what.
#[derive(Clone, Copy, Debug, PartialEq, Eq)]
pub struct Held {
    pub room: u32,
    pub size: u32,
    pub closed: u32,
    pub stage: Stage,
    pub format: ChunkHeaderFormat,
    // Kept: the table has this place or it has not, as any number may be lent (specs/Numbers.antt, decode); put_at tests it.
    // So with `closed` and `id`, whose 0 is none: an Option of them would have a case that no number means.
    pub place: u32,
    pub left: u32,
    pub id: u32,
    pub got: u32,
    pub before: HeldRow,
    pub header: HeldRow,
}

// The row that a stream claims, of which nothing has come.
pub fn claimed(id: u32) -> HeldRow
    ensures { result ≡ held_row_of (claimed id) }
{
    HeldRow {
        id,
        time: 0,
        field: 0,
        length: 0,
        kind: 0,
        stream: 0,
    }
}

// Six of the numbers, as a row.
// Kept: as in table.rt, whose row has its type cut to a byte (`row_at` in byte_machine's specs/Rows.antt): one for both would be given which.
fn held_row(held: &[u32; 24], at: usize) -> HeldRow
    requires { at + 5 < 24 }
    ensures { result ≡ held_row_at held.now at }
{
    HeldRow {
        id: held[at],
        time: held[at + 1],
        field: held[at + 2],
        length: held[at + 3],
        kind: held[at + 4],
        stream: held[at + 5],
    }
}

// The format that a type's number means: one over 3 means type 3.
// Kept: no `get_format`, which reads the first two bits of a byte.
#[tactic(auto, unfolding(crate::specs::Numbers::format_from))]
pub fn format_from(kind: u32) -> ChunkHeaderFormat
    ensures { result ≡ format_from kind }
{
    match kind {
        0 => ChunkHeaderFormat::Full,
        1 => ChunkHeaderFormat::TimeDeltaWithoutMessageStreamId,
        2 => ChunkHeaderFormat::TimeDeltaOnly,
        _ => ChunkHeaderFormat::Empty,
    }
}

// The decoder that numbers mean ..
pub fn held_in(held: &[u32; 24]) -> Held
    ensures { result ≡ held_in held.now }
{
    Held {
        room: held[places::ROOM],
        size: held[places::SIZE],
        closed: held[places::CLOSED],
        stage: stage_in(
            held[places::STAGE],
            held[places::GATHERED],
            held[places::LACKS],
        ),
        format: format_from(held[places::FORMAT]),
        place: held[places::PLACE],
        left: held[places::LEFT],
        id: held[places::ID],
        got: held[places::GOT],
        before: held_row(held, places::BEFORE),
        header: held_row(held, places::HEADER),
    }
}

// .. and those that stand for a decoder.
pub fn numbers_of(h: Held) -> [u32; 24]
    ensures { result ≡ numbers_of h }
{
    let [stage, gathered, lacks] = stage_numbers(h.stage);
    let format = h.format as u32;
    let b = h.before;
    let k = h.header;
    [
        h.room, h.size, h.closed, stage, gathered, lacks, format, h.place, h.left, h.id, h.got,
        b.id, b.time, b.field, b.length, b.kind, b.stream, k.id, k.time, k.field, k.length, k.kind,
        k.stream, 0,
    ]
}

// The decoder, closed with a number.
pub fn shut(h: Held, closed: u32) -> Held
    ensures { meant result [] ≡ shut_with (meant h []) closed }
{
    Held { closed, ..h }
}

// The same decoder, in the numbers that stand for it.
pub fn renew(held: &mut [u32; 24])
    ensures { held.new ≡ again held.old }
{
    *held = numbers_of(held_in(held));
}
