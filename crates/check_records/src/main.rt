// Reads jobs from standard input until it ends, each a 32-bit length, lowest byte first, and that many bytes, and prints the verdict
// of each, a line of four numbers.
#![tactic(auto)]

ghost use Rattle.std.specs.Prelude.{◌≡◌, length};

use std::io;

// Checks the next job, and answers whether there was one.
fn check_next(rt: &HostRuntime, buffer: &mut [u8]) -> io::Result<bool>
    requires { length buffer.old ≡ 65536 }
{
    let Ok(n) = records::read_slice(rt, true, buffer) else {
        return Ok(false);
    };
    records::print_verdict(rt, buffers::job_numbers(buffer, n))?;
    Ok(true)
}

// A proved loop has to end, and nothing says that the input does: the turns are counted down from a number that no run uses up.
fn main(rt: HostRuntime) -> io::Result<()> {
    let mut buffer = [0u8; 65536];
    for _ in 0..u64::MAX {
        if !check_next(&rt, &mut buffer)? {
            break;
        }
    }
    Ok(())
}
