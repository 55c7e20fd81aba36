// One message by an encoder.
use test_calls::encoder;
use time::RtmpTimestamp;

// Encodes a message of type 9 on stream 1 in chunks of `size`, and tells the refusal, or 0, and the bytes written.
// Kept: the C interface has a number for the flag, and 0 where there is no refusal.
#[unsafe(no_mangle)]
pub extern "C" fn large_encode(
    size: u32,
    time: u32,
    forced: u32,
    payload: &[u8],
    output: &mut [u8],
    report: &mut [u64; 2],
) {
    let time = RtmpTimestamp::new(time);
    let sent = encoder(size).serialize(9, 1, time, payload, forced != 0, false, output);
    *report = match sent.packet {
        Ok(written) => [0, written as u64],
        Err(error) => [error as u64, 0],
    };
}
