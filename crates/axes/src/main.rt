// Reads a job from standard input, and prints its report or its refusal.
#![tactic(auto)]

use std::io;

fn main(rt: HostRuntime) -> io::Result<()> {
    input::print_answer(&rt, report::answer)
}
