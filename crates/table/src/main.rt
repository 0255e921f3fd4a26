// Reads at most 16,384 bytes of job text from standard input and prints the exact sums of its table, or the refusal's line.
#![tactic(auto)]

use std::io;

fn main(rt: HostRuntime) -> io::Result<()> {
    input::print_answer(&rt, job_table::lines::answer)
}
