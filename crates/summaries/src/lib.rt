// Summaries: what a proposal claims of each variable at the entry of each point.
#![tactic(auto)]

ghost use Rattle.std.specs.Prelude.{◌≡◌, ◌+◌, ◌*◌, ◌≤◌, ◌<◌, replicate, leb};
ghost use Rattle.commands.specs.Commands.{byte};
ghost use Rattle.summaries.specs.ProposalReading.{holding_at, holding_there, variable_of, holding_context};
ghost use Rattle.summaries.specs.Inner.Listed.{claim_here, ClaimMoves, string_here, StringMoves};
ghost use Rattle.summaries.specs.Inner.Promises.{present_at, Ranked, head_here, HoldingsRead, ProposalReads};

use commands::{Context, Decoded, Position, ReadError};
use verdicts::Form;

// What an item under the head of a template variable says: a root; an edge of a template's gap; a string, or any string, at a
// template's attribute gap; that an open gap, or an open attribute gap, may come from a template.
#[derive(Clone, Copy)]
pub enum Claim {
    Root(u8),
    Edge(u8, u8, u8),
    String(u8, u8, u8),
    AnyString(u8, u8),
    GapFrom(u8, u8),
    AttributeGapFrom(u8, u8),
}

// What an item under the head of a string variable says: one string, or any.
#[derive(Clone, Copy)]
pub enum StringClaim {
    One(u8),
    Any,
}

// The item of a template variable here, with the position after it; or none stands here.
pub fn claim_here(s: &[u8], here: Position) -> Option<(Claim, Position)>
    ensures is { result ≡ claim_here s.now here.at }
    ensures fits { ClaimMoves s.now here.at result }
{
    if s.len() <= here.at {
        return None;
    }
    let a = here.operand(s, 1);
    let b = here.operand(s, 2);
    let c = here.operand(s, 3);
    match commands::byte_at(s, here.at) {
        0x41 => Some((Claim::Root(a % 32), here.on(2))),
        0x42 => Some((Claim::Edge(a % 32, b % 8, c % 32), here.on(4))),
        0x43 => Some((Claim::String(a % 32, b % 8, c % 64), here.on(4))),
        0x44 => Some((Claim::AnyString(a % 32, b % 8), here.on(3))),
        0x45 => Some((Claim::GapFrom(a % 8, b % 32), here.on(3))),
        0x46 => Some((Claim::AttributeGapFrom(a % 8, b % 32), here.on(3))),
        _ => None,
    }
}

// The item of a string variable here, with the position after it; or none stands here.
pub fn string_here(s: &[u8], here: Position) -> Option<(StringClaim, Position)>
    ensures is { result ≡ string_here s.now here.at }
    ensures fits { StringMoves s.now here.at result }
{
    if s.len() <= here.at {
        return None;
    }
    let a = here.operand(s, 1);
    match commands::byte_at(s, here.at) {
        0x47 => Some((StringClaim::One(a % 64), here.on(2))),
        0x48 => Some((StringClaim::Any, here.on(1))),
        _ => None,
    }
}

// An operand of a command that has `count` of them; 0 where it has none there.
fn present(s: &[u8], here: Position, count: usize, i: usize) -> u64
    ensures { (result ≡ present_at s.now here.at count i) × (result < 256) }
{
    if count < i {
        return 0;
    }
    here.operand(s, i) as u64
}

// The place of an item in the order.
#[tactic(auto, unfolding(crate::specs::ProposalReading::rank))]
fn rank(s: &[u8], here: Position, code: u8) -> u64
    ensures { Ranked s.now here.at code result }
{
    let count = commands::operand_bytes(code);
    let first = present(s, here, count, 1);
    let second = present(s, here, count, 2);
    let third = present(s, here, count, 3);
    (((code as u64) * 256 + first) * 256 + second) * 256 + third
}

// Whether the template that an operand names is there.
fn is_there(s: &[u8], here: Position, i: usize, templates: usize) -> bool
    ensures { result ≡ leb (byte s.now (here.at + i)) templates }
{
    (here.operand(s, i) as usize) <= templates
}

// Whether the templates that an item names are there.
fn holding_there(s: &[u8], here: Position, code: u8, templates: usize) -> bool
    ensures { result ≡ holding_there templates (holding_at s.now here.at code) }
{
    match code {
        0x41 | 0x43 | 0x44 => is_there(s, here, 1, templates),
        0x42 => is_there(s, here, 1, templates) && is_there(s, here, 3, templates),
        0x45 | 0x46 => is_there(s, here, 2, templates),
        _ => true,
    }
}

// The items under a head, up to the first command that is none of them.
fn read_holdings(
    s: &[u8],
    here: Position,
    context: Context,
    templates: usize,
) -> Result<Position, ReadError>
    ensures { HoldingsRead context templates s.now 0 here.at result }
{
    let mut at = here;
    let mut least = 0;
    loop {
        if !commands::is_allowed(context, commands::byte_at(s, at.at)) {
            return Ok(at);
        }
        let d = at.command(s, context);
        let Decoded::Moved(code, next) = d else {
            return Err(d.refusal());
        };
        if !holding_there(s, at, code, templates) {
            return Err(ReadError {
                form: Form::Missing,
                at: at.at,
            });
        }
        let place = rank(s, at, code);
        if place < least {
            return Err(ReadError {
                form: Form::NotRising,
                at: at.at,
            });
        }
        least = place + 1;
        at = next;
    }
}

// A head's place in the order.
fn head_number(s: &[u8], here: Position) -> usize
    ensures { result ≡ byte s.now (here.at + 1) * 8 + byte s.now (here.at + 2) }
{
    (here.operand(s, 1) as usize) * 8 + (here.operand(s, 2) as usize)
}

// The head that may stand here, at least `least` as p * 8 + v, or `4F`.
#[tactic(auto, using(crate::proofs::Here::head_refused, crate::proofs::Here::head_ends, crate::proofs::Here::head_missing, crate::proofs::Here::head_not_rising, crate::proofs::Here::head_moves))]
fn head_here(s: &[u8], here: Position, points: usize, least: usize) -> Decoded
    ensures { result ≡ head_here points s.now least here.at }
{
    let d = here.command(s, Context::Heads);
    let Decoded::Moved(code, _) = d else {
        return d;
    };
    if code == 0x4F {
        return d;
    }
    if points <= (here.operand(s, 1) as usize) {
        return Decoded::Refused(Form::Missing, here.at);
    }
    if head_number(s, here) < least {
        return Decoded::Refused(Form::NotRising, here.at);
    }
    d
}

// The items that may stand under a head.
fn context_of(v: u8) -> Context
    ensures { result ≡ holding_context (variable_of v) }
{
    if v < 4 {
        return Context::TemplateHoldings;
    }
    Context::StringHoldings
}

// The proposal from here on, up to `4F`, of a job with these numbers of templates and points. An array that is lent with zeros gets,
// for each point p and variable v, as `40` numbers it, the offset of the first item under its head, at p * 8 + v; where it has no
// head, 0 stays.
pub fn read_proposal(
    s: &[u8],
    here: Position,
    templates: usize,
    points: usize,
    heads: &mut [usize; 256],
) -> Result<Position, ReadError>
    requires { (points ≤ 32) × (heads.old ≡ replicate 256 0) }
    ensures { ProposalReads templates points s.now 0 here.at heads.new result }
{
    let mut at = here;
    let mut least = 0;
    loop {
        let d = head_here(s, at, points, least);
        let Decoded::Moved(code, next) = d else {
            return Err(d.refusal());
        };
        if code == 0x4F {
            return Ok(next);
        }
        let number = head_number(s, at);
        heads[number] = next.at;
        at = read_holdings(s, next, context_of(at.operand(s, 2)), templates)?;
        least = number + 1;
    }
}
