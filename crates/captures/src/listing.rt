// A capture's way through the decoder, message by message.
use crate::hash::Hash;
use in_place::Message;
use std::io;
use test_calls::{Cut, Decoder, Stop, Walk, size_told};

const ROOM: u32 = 65536;

const PAYLOAD_LENGTH: usize = 65536;

// The largest chunk size that a decoder takes.
const LARGEST_SIZE: u32 = 2147483647;

// Writes a message as the listings have it, and tells the decoder the chunk size that the message tells, where it takes such.
fn list(
    rt: &impl Print,
    decoder: &mut Decoder,
    message: Message,
    payload: &[u8],
) -> Result<(), Stop> {
    println!(rt;
        "{} {} {} {} {}",
        message.type_id,
        message.stream_id,
        message.timestamp.value,
        payload.len(),
        Hash::of(payload)
    )?;
    match size_told(message, payload) {
        Some(size @ 1..=LARGEST_SIZE) => decoder
            .set_max_chunk_size(size)
            .map_err(Stop::SizeRefused),
        _ => Ok(()),
    }
}

// Offers all of the capture, and writes each message and where it ended.
pub fn list_all(rt: &impl Print, capture: &[u8], cut: Cut) -> io::Result<()> {
    let mut decoder = Decoder::new(ROOM);
    let mut payload = [0; PAYLOAD_LENGTH];
    let mut walk = Walk::new(capture, cut);
    let walked = walk.each_message(&mut decoder, &mut payload, |decoder, message, payload| {
        list(rt, decoder, message, payload)
    });
    if let Err(stop) = walked {
        stop.tell(rt)?;
    }
    let place = if decoder.may_tell() {
        "between messages"
    } else {
        "inside a message"
    };
    println!(rt; "used {} of {}, {place}", walk.used, capture.len())
}
