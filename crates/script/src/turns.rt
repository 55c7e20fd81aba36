// A run, line by line.
use crate::calls::Calls;
use script_lines::{LONGEST_LINE, Lines, is_skipped};
use script_plans::Plan;
use script_said::Text;
use std::fmt::Write;
use std::io;

// Answers that wait to be written: up to 65536 bytes, and behind them one answer with a payload of
// 262144 bytes in hex.
pub const TEXT_LENGTH: usize = 655360;

// So many bytes of answers do not wait any longer.
const LONGEST_WAIT: usize = 65536;

// What is kept from line to line.
#[derive(Drop)]
struct Turns<'a> {
    calls: Calls<'a>,
    answers: Text<TEXT_LENGTH>,
    // how many lines were taken
    taken: u64,
}

impl<'a> Turns<'a> {
    // Before the first line.
    fn new(plan: &'a mut Plan) -> Self {
        Turns {
            calls: Calls::new(plan),
            answers: Text::new(),
            taken: 0,
        }
    }

    // Answers a line that is not skipped, and says whether the run goes on: after a bad line it is over.
    fn answer(&mut self, line: &[u8]) -> bool {
        self.taken = self.taken.wrapping_add(1);
        if is_skipped(line) {
            return true;
        }
        let is_call = self.calls.make(line, &mut self.answers).is_some();
        if !is_call {
            let _ = write!(self.answers, "bad line {}", self.taken);
        }
        let _ = self.answers.write_str("\n");
        is_call
    }

    // Writes the answers that wait.
    fn write_answers(&mut self, rt: &impl Print) -> io::Result<()> {
        rt.write_all(self.answers.as_bytes())?;
        self.answers.clear();
        Ok(())
    }

    // Answers the lines that were read to their end, and one with no end yet that is too long already. Says whether the run goes on.
    fn answer_read(&mut self, rt: &impl Print, read: &[u8]) -> io::Result<bool> {
        for piece in read.split_inclusive(|byte| *byte == b'\n') {
            let goes_on = match piece {
                [line @ .., b'\n'] => self.answer(line),
                _ if LONGEST_LINE < piece.len() => self.answer(piece),
                _ => true,
            };
            if !goes_on {
                return Ok(false);
            }
            if LONGEST_WAIT <= self.answers.as_bytes().len() {
                self.write_answers(rt)?;
            }
        }
        Ok(true)
    }
}

// Runs the script on standard input to its end, or to its first bad line. Answers are written before anything is read. The turns
// are counted up to a number that no run reaches.
pub fn run(rt: &(impl Input + Print)) -> io::Result<()> {
    let mut lines = Lines::new();
    let mut plan = Plan::new();
    let mut turns = Turns::new(&mut plan);
    for _ in 0..u64::MAX {
        let goes_on = turns.answer_read(rt, lines.read())?;
        turns.write_answers(rt)?;
        if !goes_on {
            break;
        }
        if !lines.read_more(rt)? {
            turns.answer(lines.read());
            turns.write_answers(rt)?;
            break;
        }
    }
    Ok(())
}
