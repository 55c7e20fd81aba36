// Runs the script on standard input: plans, and what the check says of proposals.
#![tactic(auto)]

use std::io;

fn main(rt: HostRuntime) -> io::Result<()> {
    script::run(&rt)
}
