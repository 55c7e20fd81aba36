// What is refused of a header over numbers that a caller lends, and what it settles when it is whole.
#![tactic(auto)]

mod refusals;
mod settle;

pub use crate::refusals::check_basic;
pub use crate::settle::{
    extended_next, length_next, message_time, settled, stream_next, timestamp_next, type_next,
};
