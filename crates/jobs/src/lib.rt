// Jobs: a vocabulary, templates, a program and a proposal, read from one string of bytes; and scripts, which end before the proposal.
#![tactic(auto)]

ghost use Rattle.std.specs.Prelude.{◌≡◌, replicate};
ghost use Rattle.jobs.specs.Inner.Promises.{FewEnough, EndedAt, ScriptReads, SliceReads, JobReads};

use commands::{Position, ReadError};
use pages::{MOST_BYTES, Templates};
use programs::Points;
use verdicts::Form;
use vocabularies::Tables;

// What reading a script keeps of each part.
#[derive(Clone, Copy)]
pub struct ScriptRead {
    pub tables: Tables,
    pub templates: Templates,
    pub points: Points,
}

// Bytes that are read alone may not be too many.
pub fn not_too_many(s: &[u8]) -> Result<(), ReadError>
    ensures { FewEnough s.now result }
{
    if MOST_BYTES < s.len() {
        return Err(ReadError {
            form: Form::TooLong,
            at: 0,
        });
    }
    Ok(())
}

// Nothing may follow the last part of bytes that are read alone.
pub fn ended(s: &[u8], end: Position) -> Result<(), ReadError>
    ensures { EndedAt s.now end.at result }
{
    if end.at < s.len() {
        return Err(ReadError {
            form: Form::NotAllowed,
            at: end.at,
        });
    }
    Ok(())
}

// The script that bytes begin with: its three parts, in order, with the position after it. 1 where the bytes are too many.
fn read_script(s: &[u8]) -> Result<(ScriptRead, Position), ReadError>
    ensures { ScriptReads s.now result }
{
    not_too_many(s)?;
    let (tables, next) = vocabularies::read_vocabulary(s)?;
    let (templates, next) = pages::read_templates(tables.declared, s, next)?;
    let (points, end) = programs::read_program(s, next, templates.count)?;
    let read = ScriptRead {
        tables,
        templates,
        points,
    };
    Ok((read, end))
}

// A script that is a slice of its own.
pub fn read_script_slice(s: &[u8]) -> Result<(ScriptRead, Position), ReadError>
    ensures { SliceReads s.now result }
{
    let (read, end) = read_script(s)?;
    ended(s, end)?;
    Ok((read, end))
}

// A job: the script, then the proposal. An array that is lent with zeros gets the offsets of the items under each head of the
// proposal.
pub fn read_job(s: &[u8], heads: &mut [usize; 256]) -> Result<(ScriptRead, Position), ReadError>
    requires { heads.old ≡ replicate 256 0 }
    ensures { JobReads s.now heads.new result }
{
    let (read, next) = read_script(s)?;
    let end = summaries::read_proposal(s, next, read.templates.count, read.points.count, heads)?;
    ended(s, end)?;
    Ok((read, end))
}
