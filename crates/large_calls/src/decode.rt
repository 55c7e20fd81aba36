// One message by a decoder, its bytes in pieces.
use test_calls::{Cut, Decoder, Stop, Walk};

// Decodes in pieces of `piece` bytes up to the first answer, and tells its kind (0 for more wanted, 1 for a message, 2 for a
// refusal), the refusal, type, stream, time, length, bytes used and calls.
// Kept: the C interface has numbers for the kinds, and 0 where there is no refusal.
#[unsafe(no_mangle)]
pub extern "C" fn large_decode(
    room: u32,
    size: u32,
    input: &[u8],
    piece: usize,
    payload: &mut [u8],
    report: &mut [u64; 8],
) {
    let mut decoder = Decoder::new(room);
    let _ = decoder.set_max_chunk_size(size);
    let mut walk = Walk::new(input, Cut::Even(piece));
    let answer = walk.next_message(&mut decoder, payload);
    let [kind, refusal, type_id, stream_id, time, length] = match answer {
        Ok(Some(m)) => [1, 0, m.type_id, m.stream_id, m.timestamp.value, m.length],
        Err(Stop::Refused(number)) => [2, number, 0, 0, 0, 0],
        _ => [0; 6],
    };
    *report = [
        u64::from(kind),
        u64::from(refusal),
        u64::from(type_id),
        u64::from(stream_id),
        u64::from(time),
        u64::from(length),
        walk.used as u64,
        walk.calls,
    ];
}
