// What calls that write bytes answer.
use crate::digits::Hex;
use crate::refused::Refused;
use std::fmt;
use std::fmt::Write;
use test_parts::part;

// How many bytes were written, the first of the output, or the number of a refusal.
#[derive(Clone, Copy)]
pub struct Written<'a> {
    pub count: Result<usize, u32>,
    pub output: &'a [u8],
}

impl fmt::Display for Written<'_> {
    fn fmt<W: Write>(&self, f: &mut fmt::Formatter<W>) -> fmt::Result {
        match self.count {
            Ok(count) => write!(f, "wrote {count} {}", Hex(part(self.output, 0, count))),
            Err(number) => write!(f, "{}", Refused(number)),
        }
    }
}
