// The calls of lines that are made on an encoder or a decoder, which is kept from line to line. A test tool: it is proved safe and
// ending, and promises nothing further.
#![tactic(auto)]

mod dec_calls;
mod decoder;
mod enc_calls;

pub use crate::dec_calls::make_dec;
pub use crate::decoder::{Decoder, InPlace};
pub use crate::enc_calls::make_enc;
