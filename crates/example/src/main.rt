// One message there and back, and a byte that is refused: a type 3 chunk of a stream that has no row.
#![tactic(auto)]

use deserializer::{Answer, ChunkDeserializer, Decoded};
use serializer::ChunkSerializer;
use std::io;
use time::RtmpTimestamp;

// Says what a call answered, and hands the decoder on.
fn tell(rt: &impl Print, decoded: Decoded) -> io::Result<ChunkDeserializer> {
    match decoded.answer {
        Answer::Message { message, .. } => {
            let (type_id, time, length) = (
                message.type_id,
                message.timestamp.value,
                message.length,
            );
            println!(rt; "message of type {type_id} at {time} with bytes: {length}")?;
        }
        Answer::More { used } => println!(rt; "more wanted, used {used}")?,
        Answer::Refused { number, .. } => println!(rt; "refused with {number}")?,
    }
    Ok(decoded.deserializer)
}

fn main(rt: HostRuntime) -> io::Result<()> {
    let mut wire = [0u8; 64];
    let mut picture = [0u8; 4096];
    let time = RtmpTimestamp::new(40);
    let encoder = ChunkSerializer::new();
    encoder.serialize(9, 1, time, b"a frame", false, false, &mut wire);
    let made = ChunkDeserializer::new(4096);
    let decoder = made.deserializer;
    let decoder = tell(&rt, decoder.get_next_message(&wire, &mut picture))?;
    tell(&rt, decoder.get_next_message(b"\xc5", &mut picture))?;
    Ok(())
}
