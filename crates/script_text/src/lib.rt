// The lines of scripts (docs/SCRIPTS.md): their words, and what a word says. It knows no codec. A test tool: it is proved safe and
// ending, and promises little further.
#![tactic(auto)]

mod hex;
mod numbers;
mod words;

pub use crate::hex::read_hex;
pub use crate::numbers::{read_flag, read_number};
pub use crate::words::{MOST_WORDS, split_words};
