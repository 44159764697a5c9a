// Reads a job up to `3F` from standard input and writes the whole job, the least proposal at its end, to standard output. A refusal is told
// on standard error, a line of four numbers, and nothing is written.
#![tactic(auto)]

ghost use Rattle.std.specs.Prelude.{◌≤◌, ◌≡◌, length};
ghost use Rattle.verdicts.specs.Printed.{bytes_written};

use std::io;
use verdicts::Writing;

// Writes the script and the proposal behind it, or tells the refusal.
fn write_job(rt: &HostRuntime, script: &[u8], buffer: &[u8], answer: Writing) -> io::Result<()>
    requires { bytes_written answer ≤ length buffer.now }
{
    match answer {
        Ok(m) => {
            records::write_bytes(rt, script)?;
            records::write_bytes(rt, &buffer[..m])
        }
        Err(_) => { records::tell_verdict(rt, verdicts::numbers_of(verdicts::verdict_of(answer))) }
    }
}

// Works out the proposal of the script on standard input.
fn infer_input(
    rt: &HostRuntime,
    script: &mut [u8],
    work: &mut [u64],
    buffer: &mut [u8],
) -> io::Result<()>
    requires { length script.old ≡ 65536 }
{
    let Ok(n) = records::fill(rt, script) else {
        return Ok(());
    };
    let answer = script_buffers::infer_script(script, n, work, buffer);
    write_job(rt, &script[..n], buffer, answer)
}

fn main(rt: HostRuntime) -> io::Result<()> {
    let mut script = [0u8; 65536];
    let mut work = [0u64; 131072];
    let mut buffer = [0u8; 4194304];
    infer_input(&rt, &mut script, &mut work, &mut buffer)
}
