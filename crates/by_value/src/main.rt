// The decoder by value: the script on standard input, of its calls alone, answered as `replay` answers it, but that a line that is
// no call answers an empty line, and the script goes on.
#![tactic(auto)]

mod calls;

use crate::calls::Decoding;
use script_lines::is_skipped;
use script_said::Text;
use std::fmt::Write;
use std::io;
use test_parts::read_full;

// The longest script.
const INPUT_LENGTH: usize = 16384;

// The answers.
const TEXT_LENGTH: usize = 16384;

// Answers line after line.
fn answer_all(script: &[u8], text: &mut Text<TEXT_LENGTH>) {
    let mut decoding = Decoding::new();
    for line in script.split(|byte| *byte == b'\n') {
        if !is_skipped(line) {
            decoding.make(line, text);
            let _ = text.write_str("\n");
        }
    }
}

fn main(rt: HostRuntime) -> io::Result<()> {
    let mut input = [0u8; INPUT_LENGTH];
    let mut text = Text::new();
    let length = read_full(&mut rt.reader(), &mut input)?;
    answer_all(&input[..length], &mut text);
    rt.write_all(text.as_bytes())
}
