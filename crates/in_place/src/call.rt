// The next message, over what is lent.
ghost use Rattle.decoding.specs.Call.{next};
ghost use Rattle.held.specs.Numbers.{decode};
ghost use Rattle.one_stroke.specs.Lent.{Lent};
ghost use Rattle.in_place.specs.Answer.{answer_of};

use crate::answer::{Answer, handed, refused};
use crate::refusal::Refusal;
use crate::turning::turns;
use held::{TABLE_LENGTH, places, renew};
use one_stroke::{at_once, within};

// A closed decoder, or too short a buffer, or the bytes of the input.
fn by_turns(
    held: &mut [u32; 24],
    rows: &mut [u32; TABLE_LENGTH],
    input: &[u8],
    payload: &mut [u8],
) -> Answer
    ensures { Lent (answer_of result) held.new rows.new payload.new (next (decode held.old rows.old) input.now payload.old) }
{
    let closed = held[places::CLOSED];
    if closed != 0 {
        renew(held);
        return refused(closed, 0);
    }
    if payload.len() < held[places::ROOM] as usize {
        renew(held);
        return refused(Refusal::BUFFER_TOO_SHORT.number, 0);
    }
    if input.len() == 0 {
        renew(held);
        return Answer::More { used: 0 };
    }
    turns(held, rows, input, payload)
}

// Kept: the two arrays apart, as README and C lend them, and the promise is for every content of them (one_stroke's specs/Lent.antt).
// Takes a prefix of `input`, up to the end of the next message at most. The payload of a message is the first bytes of
// `payload`, where the same buffer was lent untouched since the message's first byte.
pub fn next_message(
    held: &mut [u32; 24],
    rows: &mut [u32; TABLE_LENGTH],
    input: &[u8],
    payload: &mut [u8],
) -> Answer
    ensures { Lent (answer_of result) held.new rows.new payload.new (next (decode held.old rows.old) input.now payload.old) }
{
    if within(held, input, payload) {
        return Answer::More { used: input.len() };
    }
    if let Some(used) = at_once(held, rows, input, payload) {
        return handed(held, used);
    }
    by_turns(held, rows, input, payload)
}
