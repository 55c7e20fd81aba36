// Lines of standard input, in a buffer of fixed length. A test tool: it is proved safe and ending, and promises little further.
#![tactic(auto)]

mod lines;

pub use crate::lines::{INPUT_LENGTH, LONGEST_LINE, Lines, is_skipped};
