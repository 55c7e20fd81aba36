// Runs a script of the codec's calls: one call a line on standard input, one answer a line on
// standard output.
#![tactic(auto)]

mod calls;
mod turns;

pub use crate::calls::{BYTES_LENGTH, OUTPUT_LENGTH, PAYLOAD_LENGTH};
pub use crate::turns::{TEXT_LENGTH, run};
