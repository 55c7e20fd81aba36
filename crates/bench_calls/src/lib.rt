// Whole runs of calls for bench/run, so that nothing but our own code is timed.
#![tactic(auto)]

mod decode;
mod encode;
