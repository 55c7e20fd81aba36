// Calls of the codec as several test tools make them: an encoder that knows a chunk size, a decoder with what it lends, and a
// walk of a decoder through an input. A test tool: it is proved safe and ending, and promises what its few clauses say.
#![tactic(auto)]

mod cut;
mod decoder;
mod encoders;
mod stop;
mod told;
mod used;
mod walk;

pub use crate::cut::Cut;
pub use crate::decoder::Decoder;
pub use crate::encoders::encoder;
pub use crate::stop::Stop;
pub use crate::told::size_told;
pub use crate::used::used_of;
pub use crate::walk::Walk;
