// Refusals.
use std::fmt;
use std::fmt::Write;

// The number of a refusal.
#[derive(Clone, Copy)]
pub struct Refused(pub u32);

impl fmt::Display for Refused {
    fn fmt<W: Write>(&self, f: &mut fmt::Formatter<W>) -> fmt::Result {
        write!(f, "refused {}", self.0)
    }
}
