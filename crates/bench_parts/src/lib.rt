// For the runs that bench/run times: a decoder's way through an input, and what a run answers.
#![tactic(auto)]

mod checksum;
mod decode;
mod tally;

pub use crate::decode::decode_all;
pub use crate::tally::Tally;
