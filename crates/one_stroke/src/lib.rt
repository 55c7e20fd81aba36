// A call in one stroke, over a decoder that is lent as numbers: a message of one chunk, and a piece within a payload.
#![tactic(auto)]

mod message;
mod piece;

pub use crate::message::at_once;
pub use crate::piece::within;
