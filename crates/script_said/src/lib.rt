// What lines answer: the text that waits to be written, and how bytes, bytes that were written and refusals stand in it. It knows no
// codec. A test tool: it is proved safe and ending, and promises of a text what is put into it.
#![tactic(auto)]

mod digits;
mod refused;
mod text;
mod written;

pub use crate::digits::Hex;
pub use crate::refused::Refused;
pub use crate::text::Text;
pub use crate::written::Written;
