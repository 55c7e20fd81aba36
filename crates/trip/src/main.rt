// A trip: calls of an encoder, of which some are refused and some packets are left out; the other packets cut into pieces, and
// offered to a decoder; and what comes out beside what was kept. Then the line breaks, after each number of bytes.
#![tactic(auto)]

mod breaking;
mod decode;
mod encode;
mod plan;
mod shown;

use crate::breaking::break_all;
use crate::decode::decode_thrice;
use crate::encode::encode_all;
use std::io;

fn main(rt: HostRuntime) -> io::Result<()> {
    let sent = encode_all(&rt)?;
    let line = sent.line();
    let end = decode_thrice(&rt, line)?;
    if sent.is_planned && end.is_good {
        print!(rt; "trip ok: {}", end.count)?;
    } else {
        print!(rt; "trip failed: {} of {}", end.count, line.kept.len())?;
    }
    println!(rt; " messages, {} of {} bytes", end.used, line.wire.len())?;
    break_all(&rt, line)
}
