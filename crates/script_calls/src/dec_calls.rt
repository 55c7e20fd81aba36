// The calls of a decoder.
use crate::decoder::Decoder;
use in_place::{Answer, Message, Refusal};
use script_said::{Hex, Refused};
use script_text::{read_hex, read_number};
use std::fmt;
use std::fmt::Write;
use test_parts::part;

// Whether a room or a size was taken.
#[derive(Clone, Copy)]
struct Taken(Result<(), Refusal>);

impl fmt::Display for Taken {
    fn fmt<W: Write>(&self, f: &mut fmt::Formatter<W>) -> fmt::Result {
        match self.0 {
            Ok(()) => f.write_str("ok"),
            Err(refusal) => write!(f, "{}", Refused(refusal.number)),
        }
    }
}

// What a feed answers, and the payload buffer: a message's payload is at its start.
#[derive(Clone, Copy)]
struct Fed<'a> {
    answer: Answer,
    payload: &'a [u8],
}

impl fmt::Display for Fed<'_> {
    fn fmt<W: Write>(&self, f: &mut fmt::Formatter<W>) -> fmt::Result {
        let Fed { answer, payload } = *self;
        match answer {
            Answer::Message { message, used } => {
                let Message {
                    type_id,
                    stream_id,
                    timestamp,
                    length,
                } = message;
                let time = timestamp.value;
                let payload = Hex(part(payload, 0, length as usize));
                write!(
                    f,
                    "message {type_id} {stream_id} {time} {length} used {used} {payload}"
                )
            }
            Answer::More { used } => write!(f, "more {used}"),
            Answer::Refused { number, used } => write!(f, "{} used {used}", Refused(number)),
        }
    }
}

// Makes the call that the words are, and puts its answer; none where they are no call. More payload buffer than there is cannot be
// lent.
pub fn make_dec(
    decoder: &mut impl Decoder,
    words: &[&str],
    bytes: &mut [u8],
    payload: &mut [u8],
    text: &mut impl Write,
) -> Option<()> {
    match *words {
        ["dec", "new", room] => {
            let told = decoder.renew(read_number(room)?);
            write!(text, "{}", Taken(told)).ok()
        }
        ["dec", "feed", buffer, hex] => {
            let payload = payload.get_mut(..read_number(buffer)?)?;
            let answer = decoder.feed(read_hex(hex, bytes)?, payload);
            write!(text, "{}", Fed { answer, payload }).ok()
        }
        ["dec", "size", size] => {
            let told = decoder.tell(read_number(size)?);
            write!(text, "{}", Taken(told)).ok()
        }
        ["dec", "size?"] => write!(text, "size {}", decoder.size()).ok(),
        _ => None,
    }
}
