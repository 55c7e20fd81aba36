// Calls for compare/large: messages and rooms too long for a line of a script. A test tool: it is proved safe and ending, and
// promises nothing further.
#![tactic(auto)]

mod decode;
mod encode;
