// The proposal of a script, worked out and written into the caller's buffer (document 02, F-1).
#![tactic(auto)]

ghost use Rattle.std.specs.Prelude.{◌≤◌, ◌≡◌, length};
ghost use Rattle.verdicts.specs.TheVerdict.{TheVerdict};
ghost use Rattle.jobs.specs.Job.{Script};
ghost use Rattle.jobs.specs.LeastEntries.{Least};
ghost use Rattle.jobs.specs.Inference.{work_words, outcome, Infers, Completes};
ghost use Rattle.states.specs.Inner.States.{entries_in};
ghost use Rattle.inference.specs.Inner.Promises.{TablesAre, proposal_in, WritesOut};

use jobs::ScriptRead;
use verdicts::{Refusal, Writing};

// The least length of the work area, in numbers.
pub const WORK_WORDS: usize = 131072;

// The least entries of a script that was read are worked out in the work area.
fn work_out(job: &[u8], read: &ScriptRead, work: &mut [u64])
    requires { (work_words ≤ length work.old) × (read.now.points.count ≤ 32) }
    ensures { (π : Script) → TablesAre π job.now read.now → Least π (entries_in read.now.points.count work.new) }
{
    let gaps = pages::gaps_of(job, &read.templates);
    memory::clear(&mut work[..read.points.count * states::POINT_WORDS]);
    solver::solve(job, &gaps, &read.points, work);
}

// The proposal of the entries in the work area is written into the buffer from a place on, if it fits there. Its length is known first.
fn write_out(
    work: &[u64],
    templates: usize,
    points: usize,
    buffer: &mut [u8],
    place: usize,
) -> Writing
    requires { (work_words ≤ length work.now) × (templates ≤ 31) × (points ≤ 32) }
    ensures { WritesOut (proposal_in templates points work.now) buffer.old place result buffer.new }
{
    let lengths = proposals::entry_lengths(work, templates, points);
    let needed = proposals::proposal_length(&lengths, points);
    if buffer.len() < place {
        return Err(Refusal::NoRoom(needed));
    }
    if buffer.len() - place < needed {
        return Err(Refusal::NoRoom(needed));
    }
    Ok(proposals::put_from(buffer, place, work, templates, points, &lengths))
}

// Works out, in a work area, the smallest proposal that covers the program of a job up to `3F`, and writes it into the buffer from a place on.
// With it a job that is not too long is accepted whenever it would be with any other. The job is lent as `&`: `untouched` holds by its type.
pub fn infer(job: &[u8], work: &mut [u64], buffer: &mut [u8], place: usize) -> Writing
    ensures answer { TheVerdict (Infers job.now work.old buffer.old place) (outcome result work.new buffer.new) }
    ensures untouched { job.now ≡ job.now }
    ensures accepted_if_any { Completes job.now place (outcome result work.new buffer.new) }
{
    let (read, _) = jobs::read_script_slice(job).map_err(|e| verdicts::unreadable(
        e.form, e.at, 0,
    ))?;
    if work.len() < WORK_WORDS {
        return Err(Refusal::NoRoom(WORK_WORDS));
    }
    work_out(job, &read, work);
    let answer = write_out(work, read.templates.count, read.points.count, buffer, place);
    memory::clear(work);
    answer
}
