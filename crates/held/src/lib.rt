// A decoder as numbers that a caller lends, and its table of rows.
#![tactic(auto)]

mod done;
mod numbers;
pub mod places;
mod stage;
mod table;

pub use crate::done::{ChunkRefusal, Done, Event, goes};
pub use crate::numbers::{Held, HeldRow, claimed, format_from, held_in, numbers_of, renew, shut};
pub use crate::stage::Stage;
pub use crate::table::{NOWHERE, ROWS, TABLE_LENGTH, find, first_free, is_own, put_at, row_in};
