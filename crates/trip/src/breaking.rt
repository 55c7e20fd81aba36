// A line that breaks: for each number of bytes, what comes out where the wire stops after so many.
use crate::decode::decode_all;
use crate::encode::Line;
use std::io;
use test_parts::part;

// The pieces that the bytes come in.
const PIECE: usize = 7;

// Breaks it after each number of its bytes, from 0 on to all of them. Writes where a message came out first, and in the end whether
// nothing was refused, every byte was used, and each message was the next one that was kept.
pub fn break_all(rt: &impl Print, line: Line<'_>) -> io::Result<()> {
    let mut count = 0;
    let mut is_good = true;
    for length in 0..=line.wire.len() {
        let broken = Line {
            wire: part(line.wire, 0, length),
            ..line
        };
        let end = decode_all(rt, broken, PIECE, false)?;
        if end.count != count {
            println!(rt; "broken after {length}: messages {}", end.count)?;
        }
        count = end.count;
        is_good = is_good && end.is_good && end.used == length;
    }
    let verdict = if is_good && count == line.kept.len() {
        "every byte used, nothing refused"
    } else {
        "failed"
    };
    println!(rt; "broken after 0 to {} bytes: {verdict}", line.wire.len())
}
