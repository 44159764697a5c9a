// Reads jobs up to `3F` from standard input until it ends, each a 32-bit length, lowest byte first, and that many bytes, and prints a line
// for each: `ok`, the length of the least proposal and its bytes in hexadecimal, or the four numbers of a refusal.
#![tactic(auto)]

ghost use Rattle.std.specs.Prelude.{◌≡◌, length};

use std::io;

// Works out the proposal of the next script, and answers whether there was one.
fn infer_next(
    rt: &HostRuntime,
    script: &mut [u8],
    work: &mut [u64],
    buffer: &mut [u8],
) -> io::Result<bool>
    requires { length script.old ≡ 65536 }
{
    let Ok(n) = records::read_slice(rt, true, script) else {
        return Ok(false);
    };
    let answer = script_buffers::infer_script(script, n, work, buffer);
    records::print_answer(rt, buffer, answer)?;
    Ok(true)
}

// A proved loop has to end, and nothing says that the input does: the turns are counted down from a number that no run uses up.
fn main(rt: HostRuntime) -> io::Result<()> {
    let mut script = [0u8; 65536];
    let mut work = [0u64; 131072];
    let mut buffer = [0u8; 4194304];
    for _ in 0..u64::MAX {
        if !infer_next(&rt, &mut script, &mut work, &mut buffer)? {
            break;
        }
    }
    Ok(())
}
