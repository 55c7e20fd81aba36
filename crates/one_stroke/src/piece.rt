// A piece that is a part of the payload of the chunk at hand, and ends before it.
ghost use Rattle.std.specs.Prelude.{◌≡◌, [], ◌+◌, ◌≤◌};
ghost use Rattle.fields.specs.Output.{stored};
ghost use Rattle.decoding.specs.Within.{nearer};
ghost use Rattle.held.specs.Numbers.{meant};
ghost use Rattle.one_stroke.specs.Quick.{Outside, Piece};

use fields::put_bytes;
use held::{Held, held_in, numbers_of, places};

// Whether a piece of so many bytes is none; `lent` is what the buffer has.
fn lies_outside(held: &[u32; 24], length: usize, lent: usize) -> bool
    ensures { Outside result held.now length lent }
{
    let room = held[places::ROOM];
    let left = held[places::LEFT];
    if held[places::CLOSED] != 0
        || held[places::STAGE] < 8
        || lent < room as usize
        || room < left
        || room - left < held[places::GOT]
        || length == 0
    {
        return true;
    }
    left as usize <= length
}

// After n bytes of payload that do not end their chunk.
// Kept: a case of in_place's `landed` too, which has no call of it here below; it is one expression.
fn nearer(h: Held, n: u32) -> Held
    requires { (n ≤ h.left) × (h.got + h.left ≤ 0xffff_ffff) }
    ensures { meant result [] ≡ nearer (meant h []) n }
{
    Held {
        got: h.got + n,
        left: h.left - n,
        ..h
    }
}

// Puts the bytes from `at` on; most pieces are long, or one byte.
fn put_piece(input: &[u8], payload: &mut [u8], at: usize)
    ensures { payload.new ≡ stored payload.old at input.now }
{
    if input.len() != 1 {
        put_bytes(input, payload, at);
        return;
    }
    if payload.len() <= at {
        return;
    }
    payload[at] = input[0];
}

// Takes it, where it is one: no row changes, and nothing is settled.
pub fn within(held: &mut [u32; 24], input: &[u8], payload: &mut [u8]) -> bool
    ensures { Piece result held.old input.now payload.old held.new payload.new }
{
    if lies_outside(held, input.len(), payload.len()) {
        return false;
    }
    let h = held_in(held);
    *held = numbers_of(nearer(h, input.len() as u32));
    put_piece(input, payload, h.got as usize);
    true
}
