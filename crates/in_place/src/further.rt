// Further chunks of the unfinished message, of type 3 and whole in the input, taken one after the other.
ghost use Rattle.std.specs.Prelude.{◌≡◌, ◌+◌, ◌*◌, ◌≤◌, ◌<◌, drop, get_or, length as list_length, take};
ghost use Rattle.std.proofs.lemmas.List.Edits.{sets};
ghost use Rattle.byte_machine.specs.Rows.{row_count};
ghost use Rattle.decoding.specs.Further.{Stops};
ghost use Rattle.held.specs.Numbers.{numbers_of};
ghost use Rattle.in_place.specs.Follow.{Apart, Follows, Goes, Other, gone_to};

use chunk_header::{ChunkHeaderFormat, MAX_INITIAL_TIMESTAMP};
use fields::put_bytes;
use held::{Held, HeldRow, Stage, TABLE_LENGTH, find, is_own, numbers_of, places, row_in};

// How much of the message has come, and the place in the input.
#[derive(Clone, Copy, Debug, PartialEq, Eq)]
pub struct Gone {
    pub got: u32,
    pub at: usize,
}

// Whether the next chunk is not of type 3, not whole, or the message's last.
fn stops(input: &[u8], at: usize, id: u32, got: u32, length: u32, left: u32) -> bool
    requires { id ≤ 63 }
    ensures { Stops result input.now at id got length left }
{
    input.len() <= at
        || input[at] as u32 != 192 + id
        || input.len() - at <= left as usize
        || left == 0
        || length.saturating_sub(got) <= left
}

// The bytes of a chunk, after its first.
fn take_chunk(left: u32, got: u32, input: &[u8], at: usize, payload: &mut [u8])
    requires { (at + 1 + left ≤ list_length input.now) × (got + left ≤ list_length payload.old) }
    ensures { payload.new ≡ sets payload.old got (take left (drop (at + 1) input.now)) }
{
    put_bytes(
        &input[at + 1..at + 1 + left as usize],
        payload,
        got as usize,
    );
}

// Takes such chunks as long as there are any.
// Kept: numbers apart, as some stay from chunk to chunk and two go on; `Gone` has these.
fn chunks(
    size: u32,
    id: u32,
    length: u32,
    come: u32,
    input: &[u8],
    start: usize,
    payload: &mut [u8],
) -> Gone
    requires { (id ≤ 63) × ((start ≤ list_length input.now) × (length ≤ list_length payload.old)) }
    ensures { Goes result size id length come input.now start payload.old payload.new }
{
    let mut got = come;
    let mut at = start;
    // Kept: no `for`, as each chunk has a length of its own, and the place where it ends is answered.
    while at < input.len() {
        let left = size.min(length.saturating_sub(got));
        if stops(input, at, id, got, length, left) {
            return Gone { got, at };
        }
        take_chunk(left, got, input, at, payload);
        got += left;
        at += 1 + left as usize;
    }
    Gone { got, at }
}

// Whether the decoder is in a chunk, or in no message whose stream's id fits one byte.
fn is_apart(held: &[u32; 24]) -> bool
    ensures { Apart result held.now }
{
    let id = held[places::ID];
    held[places::STAGE] != 0 || id < 2 || 63 < id
}

// Whether a row does not stay where it is put over itself, has an extended time or does not fit.
fn is_other(rows: &[u32; TABLE_LENGTH], place: usize, row: HeldRow, room: u32) -> bool
    requires { place < row_count }
    ensures { Other result rows.now place row room }
{
    !is_own(rows, place) || row.field == MAX_INITIAL_TIMESTAMP || room < row.length
}

// The decoder after such chunks: so many bytes of the message have come.
fn gone_to(held: &[u32; 24], place: u32, row: HeldRow, got: u32) -> [u32; 24]
    ensures { result ≡ numbers_of (gone_to held.now place row got) }
{
    numbers_of(Held {
        room: held[places::ROOM],
        size: held[places::SIZE],
        closed: held[places::CLOSED],
        stage: Stage::Csid,
        format: ChunkHeaderFormat::Empty,
        place,
        left: 0,
        id: held[places::ID],
        got,
        before: row,
        header: row,
    })
}

// Takes the chunks that follow one that has ended, and says where in the input they end.
pub fn further(
    held: &mut [u32; 24],
    rows: &[u32; TABLE_LENGTH],
    input: &[u8],
    at: usize,
    payload: &mut [u8],
) -> usize
    requires { (at ≤ list_length input.now) × (get_or held.old 0 0 ≤ list_length payload.old) }
    ensures { Follows result held.old rows.now input.now at payload.old held.new payload.new }
{
    if is_apart(held) {
        return at;
    }
    let id = held[places::ID];
    let Some(place) = find(rows, id) else {
        return at;
    };
    let row = row_in(rows, place);
    if is_other(rows, place, row, held[places::ROOM]) {
        return at;
    }
    let size = held[places::SIZE];
    let gone = chunks(size, id, row.length, held[places::GOT], input, at, payload);
    if gone.at == at {
        return at;
    }
    *held = gone_to(held, place as u32, row, gone.got);
    gone.at
}
