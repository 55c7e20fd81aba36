// The decoder's run of bench_calls by the calls that take a decoder by value and hand it back. A library of its own, so that each form
// is compiled as for a program that has it alone.
#![tactic(auto)]

use bench_parts::decode_all;
use deserializer::ChunkDeserializer;

// Decodes all of `input`, and tells messages, calls, bytes taken and the checksum.
#[unsafe(no_mangle)]
pub extern "C" fn bench_decode_by_value(
    room: u32,
    size: u32,
    input: &[u8],
    piece: usize,
    every: usize,
    payload: &mut [u8],
    report: &mut [u64; 4],
) {
    let made = ChunkDeserializer::new(room);
    let told = made.deserializer.set_max_chunk_size(size);
    let mut decoder = told.deserializer;
    let tally = decode_all(input, piece, every, payload, |input, payload| {
        let decoded = decoder.get_next_message(input, payload);
        decoder = decoded.deserializer;
        decoded.answer
    });
    *report = tally.report();
}
