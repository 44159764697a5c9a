// Reads a job from standard input and prints its verdict, a line of four numbers.
#![tactic(auto)]

use std::io;

fn main(rt: HostRuntime) -> io::Result<()> {
    let mut buffer = [0u8; 65536];
    let Ok(n) = records::fill(&rt, &mut buffer) else {
        return Ok(());
    };
    records::print_verdict(&rt, buffers::job_numbers(&buffer, n))
}
