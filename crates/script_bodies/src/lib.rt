// The calls of lines that keep nothing: of the clock, of user control and protocol control bodies, and of settings. A test tool: it
// is proved safe and ending, and promises nothing further.
#![tactic(auto)]

mod body_calls;
mod clock_calls;
mod control_calls;
mod settings_calls;

pub use crate::body_calls::make_body;
pub use crate::clock_calls::make_time;
pub use crate::control_calls::make_control;
pub use crate::settings_calls::make_settings;
