// A run of an encoder over a list of messages, each written at the start of the same output.
use bench_parts::Tally;
use test_calls::encoder;
use test_parts::part;
use time::RtmpTimestamp;

// Encodes `width` bytes of the source after the other as a message each, all at once for 0, with the kinds and times given, or 0
// where there are none, and tells messages, calls, bytes written and the checksum.
// Kept: the C interface has 0 for all at once, and the kinds and times apart.
#[unsafe(no_mangle)]
pub extern "C" fn bench_encode(
    size: u32,
    kinds: &[u8],
    times: &[u32],
    source: &[u8],
    width: usize,
    every: usize,
    output: &mut [u8],
    report: &mut [u64; 4],
) {
    let mut state = encoder(size);
    let mut tally = Tally::default();
    let width = if width == 0 { usize::MAX } else { width };
    for (i, payload) in source.chunks(width).enumerate() {
        let kind = kinds.get(i).copied().unwrap_or(0);
        let time = RtmpTimestamp::new(times.get(i).copied().unwrap_or(0));
        let sent = state.serialize(kind, 1, time, payload, false, false, output);
        state = sent.serializer;
        let written = sent.packet.unwrap_or(0);
        tally.packet(part(output, 0, written), every);
    }
    *report = tally.report();
}
