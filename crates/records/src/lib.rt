// Standard input and standard output: what the programs share. A record is one slice, or two; a slice is a 32-bit length, lowest byte
// first, and that many bytes. Standard error says why a record or a job gets no verdict.
#![tactic(auto)]

ghost use Rattle.std.specs.Prelude.{ℕ, ◌+◌, ◌≤◌, ◌<◌, ◌≡◌, length, IfOk};
ghost use Rattle.records.specs.Reading.{attempt_of, start_of, ended_at, number_of, part_of};
ghost use Rattle.verdicts.specs.Printed.{bytes_written};
ghost use Rattle.memory.specs.Inner.Laid.{Writes};
ghost use Rattle.records.specs.Spelling.{hex_digit, digits_of, spelt};
ghost use Rattle.records.specs.Inner.Promises.{GotIn, CameIn};
ghost use Rattle.records.specs.declared.NoSlice.TheVariants as NoSlices;

use std::io::{self, Read, Write};
use verdicts::{Numbers, Writing};

// The error number of a call that a signal interrupted.
const EINTR: i32 = 4;

// What a call of `read` comes to. `Ended` and `Interrupted` are different answers with no value: an `Option` in a `Result` would be no
// plainer, since a signal is no failure that `?` may hand on.
#[derive(Clone, Copy, PartialEq, Eq)]
enum Attempt {
    // This many bytes came, one at least.
    Got(usize),
    // The input has ended.
    Ended,
    // A signal came before any byte.
    Interrupted,
    Failed,
}

// A read failed, and standard error says why.
#[derive(Clone, Copy)]
pub struct ReadFailed;

// Why no slice of a record was read.
#[derive(Clone, Copy)]
pub enum NoSlice {
    // The input ended before the record.
    Ended,
    // The input ended inside the record.
    CutOff,
    Failed,
}

impl From<ReadFailed> for NoSlice {
    ghost from_gives = { λ _ e. e ≡ NoSlices.Failed };

    fn from(_failed: ReadFailed) -> NoSlice {
        NoSlice::Failed
    }
}

// By what `read` answers: how many bytes came, or the error number, where the error has one.
fn attempt_of(answer: Result<usize, Option<i32>>) -> Attempt
    ensures { result ≡ attempt_of answer }
{
    match answer {
        Ok(0) => Attempt::Ended,
        Ok(n) => Attempt::Got(n),
        Err(Some(EINTR)) => Attempt::Interrupted,
        Err(_) => Attempt::Failed,
    }
}

// The length of a slice, by what was read of the four bytes that spell it. Where a record begins the input may have ended.
fn start_of(
    begins: bool,
    head: &[u8; 4],
    filled: Result<usize, ReadFailed>,
) -> Result<usize, NoSlice>
    ensures { result ≡ start_of begins head.now filled }
{
    let got = filled?;
    if got < 4 {
        return Err(ended_at(begins, got));
    }
    Ok(number_of(head))
}

// The input ended in a part of a record of which this many bytes came.
fn ended_at(begins: bool, got: usize) -> NoSlice
    ensures { result ≡ ended_at begins got }
{
    if begins && got == 0 {
        return NoSlice::Ended;
    }
    NoSlice::CutOff
}

// The number that four bytes spell, lowest first.
fn number_of(bytes: &[u8; 4]) -> usize
    ensures { result ≡ number_of 4 bytes.now }
{
    u32::from_le_bytes(*bytes) as usize
}

// A part of a slice, by what was read of the bytes that were asked for.
fn part_of(asked: usize, filled: Result<usize, ReadFailed>) -> Result<usize, NoSlice>
    ensures { result ≡ part_of asked filled }
{
    let got = filled?;
    if got < asked {
        return Err(NoSlice::CutOff);
    }
    Ok(asked)
}

// Why a read failed, on standard error: the text of the error without its number, which std puts behind it. Where there is no memory to take
// the number off, it stays.
fn tell_failure(rt: &HostRuntime, error: io::Error) -> io::Result<()> {
    let Ok(text) = format!(in rt.alloc(); "{error}") else {
        return eprintln!(rt; "standard input: {error}");
    };
    match text.as_str().split_once(" (os error ") {
        Some((why, _)) => eprintln!(rt; "standard input: {why}"),
        None => eprintln!(rt; "standard input: {text}"),
    }
}

// What a read that failed comes to; standard error says why, but of one that a signal interrupted.
fn failure_of(rt: &HostRuntime, error: io::Error) -> Attempt
    ensures { (most : ℕ) → GotIn result most }
{
    let attempt = attempt_of(Err(error.raw_os_error()));
    if attempt == Attempt::Failed {
        tell_failure(rt, error).ok();
    }
    attempt
}

// One read.
fn read_once(rt: &HostRuntime, buffer: &mut [u8]) -> Attempt
    ensures { GotIn result (length buffer.old) }
{
    match rt.stdin().read(buffer) {
        Ok(n) => attempt_of(Ok(n)),
        Err(error) => failure_of(rt, error),
    }
}

// A read that is tried again where a signal interrupts it; none where the input has ended. A proved loop has to end: the turns are counted
// down from a number that no run uses up, and then the read has failed.
fn read_some(rt: &HostRuntime, buffer: &mut [u8]) -> Result<Option<usize>, ReadFailed>
    ensures { CameIn result (length buffer.old) }
{
    for _ in 0..u64::MAX {
        match read_once(rt, buffer) {
            Attempt::Got(n) => return Ok(Some(n)),
            Attempt::Ended => return Ok(None),
            Attempt::Interrupted => {}
            Attempt::Failed => return Err(ReadFailed),
        }
    }
    Err(ReadFailed)
}

// Reads until the buffer is full, the input has ended or a read fails, one that would block too: how many bytes stand at the buffer's
// start, fewer than it holds only where the input ended.
pub fn fill(rt: &HostRuntime, buffer: &mut [u8]) -> Result<usize, ReadFailed>
    ensures { IfOk result (λ n. n ≤ length buffer.new) }
{
    let mut done = 0;
    while done < buffer.len() {
        let Some(n) = read_some(rt, &mut buffer[done..])? else {
            return Ok(done);
        };
        done += n;
    }
    Ok(done)
}

// Reads a few bytes of a slice that are not kept.
fn skip_some(rt: &HostRuntime, count: usize) -> Result<usize, NoSlice>
    requires { count ≤ 4096 }
{
    let mut space = [0u8; 4096];
    part_of(count, fill(rt, &mut space[..count]))
}

// Reads bytes of a slice that are not kept.
fn skip(rt: &HostRuntime, count: usize) -> Result<(), NoSlice> {
    let mut left = count;
    while left > 0 {
        let part = left.min(4096);
        skip_some(rt, part)?;
        left -= part;
    }
    Ok(())
}

// Reads one slice to its end, and keeps as many of its bytes as the buffer holds: how many it keeps.
fn read_whole(rt: &HostRuntime, begins: bool, buffer: &mut [u8]) -> Result<usize, NoSlice>
    ensures { IfOk result (λ n. n ≤ length buffer.new) }
{
    let mut head = [0u8; 4];
    let filled = fill(rt, &mut head);
    let length = start_of(begins, &head, filled)?;
    let kept = length.min(buffer.len());
    let part = part_of(kept, fill(rt, &mut buffer[..kept]))?;
    skip(rt, length - kept)?;
    Ok(part)
}

// Reads the slice that a record begins with, or its next one; where the input ends inside it, standard error says so. A slice that is
// longer than the buffer fills it, and is read to its end.
pub fn read_slice(rt: &HostRuntime, begins: bool, buffer: &mut [u8]) -> Result<usize, NoSlice>
    ensures { IfOk result (λ n. n ≤ length buffer.new) }
{
    let found = read_whole(rt, begins, buffer);
    if let Err(NoSlice::CutOff) = found {
        eprintln!(rt; "standard input: ends inside a record").ok();
    }
    found
}

// One line on standard output: the four numbers in decimal, with single spaces, as `Display` of `Numbers` spells them.
pub fn print_verdict(rt: &HostRuntime, v: Numbers) -> io::Result<()> {
    println!(rt; "{v}")
}

// The line on standard error: another stream, so another call.
pub fn tell_verdict(rt: &HostRuntime, v: Numbers) -> io::Result<()> {
    eprintln!(rt; "{v}")
}

// Bytes as they are.
pub fn write_bytes(rt: &HostRuntime, bytes: &[u8]) -> io::Result<()> {
    rt.stdout().write_all(bytes)
}

// The digit as a byte of the line that `spell` fills, as its contract says: `{:02X}` would spell one byte at a time to the output.
fn hex_digit(d: u8) -> u8
    requires { d < 16 }
    ensures { result ≡ hex_digit d }
{
    if d < 10 { b'0' + d } else { b'A' + (d - 10) }
}

fn put_digits(line: &mut [u8], at: usize, b: u8) -> usize
    requires { at + 2 ≤ length line.old }
    ensures { Writes line.old at (digits_of b) result line.new }
{
    memory::put(line, at, &[hex_digit(b / 16), hex_digit(b % 16)])
}

// The hexadecimal digits of bytes are put at a line's start; how many there are.
fn spell(bytes: &[u8], line: &mut [u8]) -> usize
    requires { length bytes.now + length bytes.now ≤ length line.old }
    ensures { Writes line.old 0 (spelt bytes.now) result line.new }
{
    let mut at = 0;
    for b in bytes {
        at = put_digits(line, at, *b);
    }
    at
}

// At most 4,096 bytes in hexadecimal.
fn print_part(rt: &HostRuntime, bytes: &[u8]) -> io::Result<()>
    requires { length bytes.now ≤ 4096 }
{
    let mut line = [0u8; 8192];
    let n = spell(bytes, &mut line);
    rt.stdout().write_all(&line[..n])
}

// Bytes in hexadecimal, however many.
fn print_hex(rt: &HostRuntime, bytes: &[u8]) -> io::Result<()> {
    for part in bytes.chunks(4096) {
        print_part(rt, part)?;
    }
    Ok(())
}

// One line: `ok`, how many bytes there are, and the bytes in hexadecimal.
fn print_bytes(rt: &HostRuntime, bytes: &[u8]) -> io::Result<()> {
    print!(rt; "ok {} ", bytes.len())?;
    print_hex(rt, bytes)?;
    println!(rt; "")
}

// One line for an answer: the bytes written, from the buffer's start on, or the refusal.
pub fn print_answer(rt: &HostRuntime, buffer: &[u8], answer: Writing) -> io::Result<()>
    requires { bytes_written answer ≤ length buffer.now }
{
    match answer {
        Ok(n) => print_bytes(rt, &buffer[..n]),
        Err(_) => print_verdict(rt, verdicts::numbers_of(verdicts::verdict_of(answer))),
    }
}
