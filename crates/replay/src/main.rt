// Runs the script on standard input: every call that the codec takes, and what it answers.
#![tactic(auto)]

use std::io;

fn main(rt: HostRuntime) -> io::Result<()> {
    script::run(&rt)
}
