// Lines of standard input, in a buffer of fixed length.
ghost use Rattle.script_lines.specs.Lines.{Begins};
ghost use Rattle.script_lines.specs.declared.lines.TheConstants.{INPUT_LENGTH};
ghost use Rattle.std.specs.Prelude.{◌≡◌, ℕ, ◌-◌, ◌<◌, ◌≤◌, ◌↔◌, List, [], drop, length, take, IsTrue, MatchResult};

use std::io;
use std::io::Read;
use std::marker::Model;

// The longest line, its end not counted.
pub const LONGEST_LINE: usize = 262144;

// What is read: the unfinished line that is kept, and at least as much more.
pub const INPUT_LENGTH: usize = 524288;

// Whether the line is empty or a comment, and not too long.
pub fn is_skipped(line: &[u8]) -> bool {
    match line {
        [] => true,
        [first, ..] => *first == b'#' && line.len() <= LONGEST_LINE,
    }
}

// Where in what was read the line begins that has no end yet.
fn unfinished(read: &[u8]) -> usize
    ensures { Begins read.now result }
{
    match read.iter().rposition(|byte| *byte == b'\n') {
        Some(end) => end + 1,
        None => 0,
    }
}

// Lines, as they come.
#[derive(Drop)]
pub struct Lines {
    bytes: [u8; INPUT_LENGTH],
    filled: usize,
}

// Clauses see what was read and is kept.
impl Model for Lines {
    ghost Value = { List ℕ };

    ghost view = { λ l. take l.filled l.bytes };

    ghost invariant = { λ l. l.filled ≤ INPUT_LENGTH };
}

impl Lines {
    // Before anything is read.
    pub fn new() -> Self
        ensures { result ≡ [] }
    {
        Lines {
            bytes: [0; INPUT_LENGTH],
            filled: 0,
        }
    }

    // What was read: whole lines, and behind the end of the last the beginning of one.
    pub fn read(&self) -> &[u8]
        ensures { result.now ≡ self.now }
    {
        &self.bytes[..self.filled]
    }

    // Lets the whole lines go, reads more behind what begins a line, once, and answers whether anything came.
    pub fn read_more(&mut self, rt: &impl Input) -> io::Result<bool>
        // what began at k stands at the start, and something behind it exactly where the answer is yes
        ensures { (k : ℕ) × Begins self.old k × (take (length self.old - k) self.new ≡ drop k self.old) ×
            MatchResult result (λ more. IsTrue more ↔ (length self.old - k < length self.new)) (λ _. self.new ≡ drop k self.old) }
    {
        let start = unfinished(self.read());
        self.bytes.copy_within(start..self.filled, 0);
        self.filled -= start;
        let count = rt.reader().read(&mut self.bytes[self.filled..])?;
        self.filled += count;
        Ok(count != 0)
    }
}
