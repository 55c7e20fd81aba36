// Turn after turn, up to a message, a refusal or the end of the input.
ghost use Rattle.std.specs.Prelude.{◌≤◌, ◌<◌, get_or, length};
ghost use Rattle.decoding.specs.Call.{run};
ghost use Rattle.held.specs.Numbers.{decode};
ghost use Rattle.one_stroke.specs.Lent.{Lent};
ghost use Rattle.in_place.specs.Answer.{answer_of};
ghost use Rattle.in_place.specs.Turn.{Turned};

use crate::answer::{Answer, handed, refused};
use crate::further::further;
use crate::paying::{Moved, may_pay, pay};
use header_in_place::take_byte;
use held::{Event, TABLE_LENGTH};

// Takes a stretch of a payload, or a byte of a header ..
// Kept: what is asked for here and twice below is of the four that are lent together, which no one value holds.
fn once(
    held: &mut [u32; 24],
    rows: &mut [u32; TABLE_LENGTH],
    input: &[u8],
    payload: &mut [u8],
) -> Moved
    requires { (0 < length input.now) × (get_or held.old 0 0 ≤ length payload.old) }
    ensures { Turned result held.old rows.old input.now payload.old held.new rows.new payload.new }
{
    if may_pay(held) {
        return pay(held, rows, input, payload);
    }
    Moved {
        event: take_byte(held, rows, input[0]),
        used: 1,
    }
}

// .. and the chunks of the same message that may follow at once.
fn turn(
    held: &mut [u32; 24],
    rows: &mut [u32; TABLE_LENGTH],
    input: &[u8],
    payload: &mut [u8],
) -> Moved
    requires { (0 < length input.now) × (get_or held.old 0 0 ≤ length payload.old) }
    ensures { Turned result held.old rows.old input.now payload.old held.new rows.new payload.new }
{
    let moved = once(held, rows, input, payload);
    let Ok(Event::Chunk) = moved.event else {
        return moved;
    };
    Moved {
        used: further(held, rows, input, moved.used, payload),
        ..moved
    }
}

pub fn turns(
    held: &mut [u32; 24],
    rows: &mut [u32; TABLE_LENGTH],
    input: &[u8],
    payload: &mut [u8],
) -> Answer
    requires { (0 < length input.now) × (get_or held.old 0 0 ≤ length payload.old) }
    ensures { Lent (answer_of result) held.new rows.new payload.new (run input.now (decode held.old rows.old) payload.old 0) }
{
    let mut at = 0;
    // Kept: no `for`, as each turn goes on by as many bytes as it answers, and the place is what is answered.
    while at < input.len() {
        let moved = turn(held, rows, &input[at..], payload);
        at += moved.used;
        match moved.event {
            Ok(Event::Go) => {}
            Ok(Event::Chunk) => {}
            Ok(Event::Message) => return handed(held, at),
            Err(refusal) => return refused(refusal.number(), at),
        }
    }
    Answer::More { used: at }
}
