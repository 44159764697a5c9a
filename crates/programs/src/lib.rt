// Page programs: one statement a point, and how they are read.
#![tactic(auto)]

ghost use Rattle.std.specs.Prelude.{find, not, ◌≡◌, true, ◌+◌, ◌≤◌, ◌<◌};
ghost use Rattle.std.proofs.Math.Seq.{slice};
ghost use Rattle.commands.specs.Commands.{byte};
ghost use Rattle.programs.specs.Program.{act_names, statement_names};
ghost use Rattle.programs.specs.ProgramReading.{statement_context, act_templates_there, templates_there, points_there};
ghost use Rattle.programs.specs.Inner.Promises.{as_act, as_statement, statement_here, ActFits, StatementFits, tested_statement, is_template, is_string, Adds, Names, StatementsRead, ProgramReads};

use commands::{Context, Decoded, Position, ReadError};
use verdicts::Form;

// The points of a program: how many, the offset of each point's statement, and as a set the variables that some statement names:
// x for template variable x, 4 + y for string variable y. Memory is fixed, so there is room for the most points that a program may have.
#[derive(Clone, Copy)]
pub struct Points {
    pub count: usize,
    pub places: [usize; 32],
    pub named: u64,
}

// What a statement does, with its operands in the order of the command.
#[derive(Clone, Copy)]
pub enum Act {
    CopyTemplate(u8, u8),
    SetTemplate(u8, u8),
    CopyString(u8, u8),
    SetString(u8, u8),
    AnyString(u8),
    Plug(u8, u8, u8, u8),
    PlugString(u8, u8, u8, u8),
    Show(u8),
    ShowFramed(u8, u8, u8),
}

// A statement with its two next points, or `38`, which is a statement too and no lack of one.
#[derive(Clone, Copy)]
pub enum Statement {
    Step {
        act: Act,
        first: usize,
        second: usize,
    },
    Stop,
}

const MOST_POINTS: usize = 32;

// A statement of which the next points stand from an operand on.
fn step_at(s: &[u8], here: Position, act: Act, next: usize) -> Statement
    requires { next < 8 }
    ensures { result ≡ Statement.Step act (byte s.now (here.at + next)) (byte s.now (here.at + (next + 1))) }
{
    Statement::Step {
        act,
        first: here.operand(s, next) as usize,
        second: here.operand(s, next + 1) as usize,
    }
}

// The statement that stands here; `38` for any other command.
pub fn statement_at(s: &[u8], here: Position) -> Statement
    ensures { as_statement result ≡ statement_here s.now here.at }
{
    let a = here.operand(s, 1);
    let b = here.operand(s, 2);
    let c = here.operand(s, 3);
    let d = here.operand(s, 4);
    match commands::byte_at(s, here.at) {
        0x30 => step_at(s, here, Act::CopyTemplate(a, b), 3),
        0x31 => step_at(s, here, Act::SetTemplate(a, b), 3),
        0x32 => step_at(s, here, Act::CopyString(a, b), 3),
        0x33 => step_at(s, here, Act::SetString(a, b), 3),
        0x34 => step_at(s, here, Act::AnyString(a), 2),
        0x35 => step_at(s, here, Act::Plug(a, b, c, d), 5),
        0x36 => step_at(s, here, Act::PlugString(a, b, c, d), 5),
        0x37 => step_at(s, here, Act::Show(a), 2),
        0x39 => step_at(s, here, Act::ShowFramed(a, b, c), 4),
        _ => Statement::Stop,
    }
}

fn statement_context(before: usize) -> Context
    ensures { result ≡ statement_context before }
{
    if before == 0 {
        return Context::FirstStatement;
    }
    Context::Statements
}

// Whether the template that an act names is there: `31` and `39` name one.
fn act_template_there(act: Act, templates: usize) -> bool
    ensures { result ≡ act_templates_there templates (as_act act) }
{
    match act {
        Act::SetTemplate(_, t) | Act::ShowFramed(_, t, _) => (t as usize) <= templates,
        _ => true,
    }
}

fn template_there(statement: Statement, templates: usize) -> bool
    ensures { result ≡ templates_there templates (as_statement statement) }
{
    match statement {
        Statement::Step { act, .. } => act_template_there(act, templates),
        Statement::Stop => true,
    }
}

// The command of a statement that may stand here, after `before` others: a template that is not there comes before a point
// too many. Bytes and templates are handed on by two functions alone, for which a struct of them would be no plainer.
fn statement_here(s: &[u8], here: Position, templates: usize, before: usize) -> Decoded
    ensures { result ≡ tested_statement templates s.now before here.at }
{
    let d = here.command(s, statement_context(before));
    let Decoded::Moved(code, _) = d else {
        return d;
    };
    if code == 0x3F {
        return d;
    }
    if !template_there(statement_at(s, here), templates) {
        return Decoded::Refused(Form::Missing, here.at);
    }
    if MOST_POINTS <= before {
        return Decoded::Refused(Form::TooMany, here.at);
    }
    d
}

// A set with a template variable, and one with a string variable. One function for both would be told the sort beside the number.
fn with_template(x: u8, set: u64) -> u64
    requires { x < 4 }
    ensures { Adds (is_template x) set result }
{
    sets::with(set, x)
}

fn with_string(y: u8, set: u64) -> u64
    requires { y < 4 }
    ensures { Adds (is_string y) set result }
{
    sets::with(set, 4 + y)
}

// The variables that an act names.
fn act_names(act: Act) -> u64
    requires { ActFits (as_act act) }
    ensures { Names (act_names (as_act act)) result }
{
    match act {
        Act::CopyTemplate(x, y) => with_template(x, with_template(y, 0)),
        Act::SetTemplate(x, _) => with_template(x, 0),
        Act::CopyString(x, y) => with_string(x, with_string(y, 0)),
        Act::SetString(y, _) => with_string(y, 0),
        Act::AnyString(y) => with_string(y, 0),
        Act::Plug(x, y, _, z) => with_template(x, with_template(y, with_template(z, 0))),
        Act::PlugString(x, y, _, z) => with_template(x, with_template(y, with_string(z, 0))),
        Act::Show(x) => with_template(x, 0),
        Act::ShowFramed(x, _, _) => with_template(x, 0),
    }
}

// The variables that a statement names.
fn named_by(statement: Statement) -> u64
    requires { StatementFits (as_statement statement) }
    ensures { Names (statement_names (as_statement statement)) result }
{
    match statement {
        Statement::Step { act, .. } => act_names(act),
        Statement::Stop => 0,
    }
}

// The statements up to `3F`.
fn read_statements(
    s: &[u8],
    here: Position,
    templates: usize,
) -> Result<(Points, Position), ReadError>
    ensures { StatementsRead s.now templates 0 0 here.at result }
{
    let mut at = here;
    // Counts the statements beside the position that moves over them.
    let mut count = 0;
    let mut places = [0usize; 32];
    let mut named = 0;
    loop {
        let d = statement_here(s, at, templates, count);
        let Decoded::Moved(code, next) = d else {
            return Err(d.refusal());
        };
        if code == 0x3F {
            let points = Points {
                count,
                places,
                named,
            };
            return Ok((points, next));
        }
        places[count] = at.at;
        named = sets::union(named, named_by(statement_at(s, at)));
        count += 1;
        at = next;
    }
}

// Whether the next points of a statement are there.
fn points_there(statement: Statement, points: usize) -> bool
    ensures { result ≡ points_there points (as_statement statement) }
{
    match statement {
        Statement::Step { first, second, .. } => first < points && second < points,
        Statement::Stop => true,
    }
}

// The offset of the earliest statement with a next point that is not there.
fn strayed(s: &[u8], points: &Points) -> Option<usize>
    requires { points.now.count ≤ 32 }
    ensures { result ≡ find (λ at. not (points_there points.now.count (statement_here s.now at))) (slice 0 points.now.count points.now.places) }
{
    points.places[..points.count].iter().copied().find(|place| {
        let statement = statement_at(s, Position::new(*place));
        !points_there(statement, points.count)
    })
}

// The program from here on, up to `3F`, of a job with this many templates; next points are tested when all statements are read.
pub fn read_program(
    s: &[u8],
    here: Position,
    templates: usize,
) -> Result<(Points, Position), ReadError>
    ensures { ProgramReads s.now templates here.at result }
{
    let (points, next) = read_statements(s, here, templates)?;
    if let Some(at) = strayed(s, &points) {
        return Err(ReadError {
            form: Form::Missing,
            at,
        });
    }
    Ok((points, next))
}
