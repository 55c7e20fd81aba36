// A byte of a header, over a decoder that is lent as numbers.
#![tactic(auto)]

mod basic;
mod gather;
mod taking;

pub use crate::taking::take_byte;
