// A stretch of payload.
ghost use Rattle.std.specs.Prelude.{◌≡◌, ◌+◌, ◌≤◌, Ok};
ghost use Rattle.byte_machine.specs.Payload.{landed as payload_landed};
ghost use Rattle.held.specs.Done.{done_of, meant_by};
ghost use Rattle.held.specs.Numbers.{held_in, reader_from};
ghost use Rattle.in_place.specs.Turn.{Ready, Turned, may_pay};

use fields::put_bytes;
use held::{
    ChunkRefusal, Done, Event, Held, NOWHERE, Stage, TABLE_LENGTH, held_in, numbers_of, places,
    put_at,
};

// What a turn settled, or why it is refused, and how many bytes it used.
#[derive(Clone, Copy, Debug, PartialEq, Eq)]
pub struct Moved {
    pub event: Result<Event, ChunkRefusal>,
    pub used: usize,
}

// Whether payload may come: the chunk at hand lacks a byte, and ends within the room.
// Kept: tests of the numbers that are lent, here and in further.rt, as `Ready` and `Apart` in specs/ have them.
#[tactic(auto, using(held::proofs::Stages::payload_from, crate::proofs::Landing::same_test), unfolding(byte_machine::specs::Payload::pays))]
pub fn may_pay(held: &[u32; 24]) -> bool
    ensures { result ≡ may_pay (held_in held.now) }
{
    let room = held[places::ROOM];
    let left = held[places::LEFT];
    if held[places::STAGE] < 8 || left == 0 || room < left {
        return false;
    }
    held[places::GOT] <= room - left
}

// After n bytes of payload.
#[tactic(auto, unfolding(byte_machine::specs::Payload::landed))]
fn landed(h: Held, n: u32) -> Done
    requires { (n ≤ h.left) × (h.got + h.left ≤ 0xffff_ffff) }
    ensures { Ok (meant_by result) ≡ done_of h (payload_landed (reader_from h) n) }
{
    let got = h.got + n;
    let left = h.left - n;
    if left != 0 {
        return Done {
            held: Held { got, left, ..h },
            event: Event::Go,
            place: NOWHERE,
        };
    }
    let place = h.place;
    let stage = Stage::Csid;
    if got < h.header.length {
        let id = h.header.id;
        return Done {
            held: Held {
                stage,
                left,
                id,
                got,
                ..h
            },
            event: Event::Chunk,
            place,
        };
    }
    Done {
        held: Held {
            stage,
            left,
            id: 0,
            got: 0,
            ..h
        },
        event: Event::Message,
        place,
    }
}

// Takes as many bytes of the payload of the chunk at hand as there are.
pub fn pay(
    held: &mut [u32; 24],
    rows: &mut [u32; TABLE_LENGTH],
    input: &[u8],
    payload: &mut [u8],
) -> Moved
    requires { Ready held.old input.now payload.old }
    ensures { Turned result held.old rows.old input.now payload.old held.new rows.new payload.new }
{
    let h = held_in(held);
    let n = input.len().min(h.left as usize);
    let done = landed(h, n as u32);
    *held = numbers_of(done.held);
    put_at(rows, done.place, done.held.header);
    put_bytes(&input[0..n], payload, h.got as usize);
    Moved {
        event: Ok(done.event),
        used: n,
    }
}
