// What test tools need that know no codec: parts of bytes, and bytes that are read.
#![tactic(auto)]

mod input;
mod parts;

pub use crate::input::read_full;
pub use crate::parts::part;
