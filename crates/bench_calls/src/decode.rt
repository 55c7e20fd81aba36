// A run of a decoder, in what is lent, over a whole input.
use bench_parts::decode_all;
use in_place::{TABLE_LENGTH, make, next_message, set_max_chunk_size};

// Decodes all of `input`, and tells messages, calls, bytes taken and the checksum.
// Kept: the C interface lends numbers and a table one by one, and has 0 for all at once.
#[unsafe(no_mangle)]
pub extern "C" fn bench_decode(
    held: &mut [u32; 24],
    rows: &mut [u32; TABLE_LENGTH],
    room: u32,
    size: u32,
    input: &[u8],
    piece: usize,
    every: usize,
    payload: &mut [u8],
    report: &mut [u64; 4],
) {
    let _ = make(held, rows, room);
    let _ = set_max_chunk_size(held, size);
    let tally = decode_all(input, piece, every, payload, |input, payload| {
        next_message(held, rows, input, payload)
    });
    *report = tally.report();
}
