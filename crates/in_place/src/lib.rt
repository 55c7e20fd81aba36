// The decoder in place: bytes in, messages out, over numbers and a table that the caller lends (chunk_io/deserializer.rs of
// rml_rtmp).
#![tactic(auto)]

mod answer;
mod call;
mod further;
mod paying;
mod refusal;
mod size;
mod turning;

pub use crate::answer::{Answer, Message};
pub use crate::call::next_message;
pub use crate::refusal::Refusal;
pub use crate::size::{get_max_chunk_size, make, set_max_chunk_size};
pub use held::TABLE_LENGTH;
