// The vocabulary of the panel: its rules, their clauses, and how they are read.
#![tactic(auto)]

ghost use Rattle.std.specs.Prelude.{ℕ, ◌≤◌, ◌<◌, ◌≡◌, List, [], ◌⊎◌};
ghost use Rattle.commands.specs.Inner.Parts.{Single};
ghost use Rattle.vocabularies.specs.Vocabulary.{order};
ghost use Rattle.vocabularies.specs.Inner.Promises.{Represents, TellsAmong, Adds, FactsWith, Stands, FormulaReads, FactsRead, ManyFacts, NamesRead, ClausesRead, RuleReads, Long, DescribesRules, VocabularyReads};

use commands::{Context, Decoded, Position, ReadError, byte_at, is_allowed};
use strings::StringSet;
use verdicts::Form;

// What reading a vocabulary keeps: which elements have a rule, the rule of each at its number, and the root.
#[derive(Clone, Copy)]
pub struct Tables {
    pub declared: u64,
    pub rules: [Rule; 64],
    pub root: u8,
}

// The formula that stands at a position, by its first command: the eight forms in the order of source 000's grammar, each with what the
// command names and the position after it; or no formula, a case beside them, so that one match takes a formula that was read apart.
#[derive(Clone, Copy)]
pub enum FormulaHere {
    Conj(Position),
    Disj(Position),
    Neg(Position),
    Truth(Position),
    Attr(u8, Position),
    Content(u8, Position),
    Order(u8, u8, Position),
    Value(u8, StringSet, Position),
    Nothing,
}

// A fact of a clause: an attribute of `14`, a content of `15` and `16`, a pair of `16`, an attribute and a set of `17`.
#[derive(Clone, Copy, PartialEq, Eq)]
pub enum Fact {
    Carried(u8),
    Present(u8),
    Ordered(u8, u8),
    Valued(u8, StringSet),
}

// The facts of a clause so far, in the order of their definition. `count` is 9 where there are more than 8, of which only the first
// 8 are kept. There is no heap: the array has room for all that are kept.
#[derive(Clone, Copy)]
pub struct Facts {
    pub kept: [Fact; 8],
    pub count: usize,
}

// A rule: the allowed attributes and contents as sets, and where its clauses stand.
#[derive(Clone, Copy)]
pub struct Rule {
    pub attributes: u64,
    pub contents: u64,
    pub clauses: Position,
}

const FORMULA_NESTING: usize = 16;

pub const MOST_FACTS: usize = 8;

pub fn no_facts() -> Facts
    ensures { Represents result [] }
{
    Facts {
        kept: [Fact::Carried(0); 8],
        count: 0,
    }
}

fn is_among(facts: Facts, fact: Fact) -> bool
    requires { facts.count ≤ 8 }
    ensures { TellsAmong facts fact result }
{
    facts.kept[..facts.count].contains(&fact)
}

// The facts with one more, unless it is there.
fn with_fact(facts: Facts, fact: Fact) -> Facts
    ensures { Adds facts fact result }
{
    let count = facts.count;
    if MOST_FACTS < count {
        return facts;
    }
    if is_among(facts, fact) {
        return facts;
    }
    let mut more = facts;
    more.count = count + 1;
    if count < MOST_FACTS {
        more.kept[count] = fact;
    }
    more
}

// The facts of `16 c d`: both contents and the pair.
fn with_order(facts: Facts, c: u8, d: u8) -> Facts
    ensures { FactsWith facts (order c d) result }
{
    let one = with_fact(facts, Fact::Present(c));
    let two = with_fact(one, Fact::Present(d));
    with_fact(two, Fact::Ordered(c, d))
}

// A formula in prefix order, below `depth` open connectives: two formulas follow a conjunction or a disjunction, one a negation, none
// the other forms.
pub fn read_formula(s: &[u8], here: Position, depth: usize) -> Result<Position, ReadError>
    ensures { FormulaReads s.now depth here.at result }
{
    let d = here.formula_command(s);
    let Decoded::Moved(code, next) = d else {
        return Err(d.refusal());
    };
    match code {
        0x10 | 0x11 => {
            if FORMULA_NESTING <= depth {
                return Err(ReadError {
                    form: Form::TooMany,
                    at: here.at,
                });
            }
            let middle = read_formula(s, next, depth + 1)?;
            read_formula(s, middle, depth + 1)
        }
        0x12 => {
            if FORMULA_NESTING <= depth {
                return Err(ReadError {
                    form: Form::TooMany,
                    at: here.at,
                });
            }
            read_formula(s, next, depth + 1)
        }
        _ => Ok(next),
    }
}

// What formula stands here, in bytes that were read.
pub fn formula_here(s: &[u8], here: Position) -> FormulaHere
    ensures { Stands s.now here.at result }
{
    let d = here.step(s);
    let Decoded::Moved(code, next) = d else {
        return FormulaHere::Nothing;
    };
    match code {
        0x10 => FormulaHere::Conj(next),
        0x11 => FormulaHere::Disj(next),
        0x12 => FormulaHere::Neg(next),
        0x13 => FormulaHere::Truth(next),
        0x14 => FormulaHere::Attr(here.operand(s, 1), next),
        0x15 => FormulaHere::Content(here.operand(s, 1), next),
        0x16 => FormulaHere::Order(here.operand(s, 1), here.operand(s, 2), next),
        0x17 => FormulaHere::Value(here.operand(s, 1), here.string_set(s), next),
        _ => FormulaHere::Nothing,
    }
}

// The facts of the formula that stands from `start` up to `end`: those of each of its commands, in their order.
pub fn facts_of(s: &[u8], start: Position, end: Position) -> Facts
    ensures { FactsRead s.now start.at end.at result }
{
    let mut facts = no_facts();
    let mut here = start;
    while here.at < end.at {
        let formula = formula_here(s, here);
        match formula {
            FormulaHere::Conj(next)
            | FormulaHere::Disj(next)
            | FormulaHere::Neg(next)
            | FormulaHere::Truth(next) => {
                here = next;
            }
            FormulaHere::Attr(a, next) => {
                facts = with_fact(facts, Fact::Carried(a));
                here = next;
            }
            FormulaHere::Content(c, next) => {
                facts = with_fact(facts, Fact::Present(c));
                here = next;
            }
            FormulaHere::Order(c, d, next) => {
                facts = with_order(facts, c, d);
                here = next;
            }
            FormulaHere::Value(a, m, next) => {
                facts = with_fact(facts, Fact::Valued(a, m));
                here = next;
            }
            FormulaHere::Nothing => {
                return facts;
            }
        }
    }
    facts
}

// Whether the formula that stands from `start` up to `end` has more facts than a clause may have. It has no more facts than bytes.
fn has_many_facts(s: &[u8], start: Position, end: Position) -> bool
    requires { start.at ≤ end.at }
    ensures { ManyFacts s.now start.at end.at result }
{
    if end.at - start.at <= MOST_FACTS {
        return false;
    }
    let facts = facts_of(s, start, end);
    MOST_FACTS < facts.count
}

// A rising list of attributes or of contents, each `code` and a number of at most `most`, as a set.
fn read_names(
    s: &[u8],
    here: Position,
    context: Context,
    code: u8,
    most: u8,
) -> Result<(u64, Position), ReadError>
    requires { ((context ≡ Context.Attributes) ⊎ (context ≡ Context.Contents)) × Single context code most }
    ensures { NamesRead s.now context here.at result }
{
    let mut place = here;
    let mut least: u8 = 0;
    let mut set: u64 = 0;
    loop {
        let at = place.at;
        if !is_allowed(context, byte_at(s, at)) {
            return Ok((set, place));
        }
        let d = place.name_command(s, context, code, most);
        let Decoded::Moved(_, next) = d else {
            return Err(d.refusal());
        };
        let name = place.operand(s, 1);
        if name < least {
            return Err(ReadError {
                form: Form::NotRising,
                at,
            });
        }
        set = sets::with(set, name);
        least = name + 1;
        place = next;
    }
}

// The clauses of a rule: each is `04` and a formula of at most 8 facts.
fn read_clauses(s: &[u8], here: Position) -> Result<Position, ReadError>
    ensures { ClausesRead s.now here.at result }
{
    let mut place = here;
    while let Some(start) = place.past(s, 0x04) {
        let next = read_formula(s, start, 0)?;
        if has_many_facts(s, start, next) {
            return Err(ReadError {
                form: Form::TooManyFacts,
                at: place.at,
            });
        }
        place = next;
    }
    Ok(place)
}

// What follows `01 e`.
fn read_rule(s: &[u8], here: Position) -> Result<(Rule, Position), ReadError>
    ensures { RuleReads s.now here.at result }
{
    let (attributes, next) = read_names(s, here, Context::Attributes, 0x02, 31)?;
    let (contents, clauses) = read_names(s, next, Context::Contents, 0x03, 63)?;
    let end = read_clauses(s, clauses)?;
    let rule = Rule {
        attributes,
        contents,
        clauses,
    };
    Ok((rule, end))
}

fn no_tables() -> Tables
    ensures long { Long result }
    ensures empty { (s : List ℕ) → DescribesRules s [] result }
{
    let nothing = Rule {
        attributes: 0,
        contents: 0,
        clauses: Position::new(0),
    };
    Tables {
        declared: 0,
        rules: [nothing; 64],
        root: 0,
    }
}

// The vocabulary that bytes begin with.
pub fn read_vocabulary(s: &[u8]) -> Result<(Tables, Position), ReadError>
    ensures { VocabularyReads s.now result }
{
    let mut place = Position::new(0);
    let mut tables = no_tables();
    loop {
        let at = place.at;
        let d = place.command(s, Context::Rules);
        let Decoded::Moved(code, next) = d else {
            return Err(d.refusal());
        };
        let e = place.operand(s, 1);
        if code == 0x05 {
            if !sets::has(tables.declared, e) {
                return Err(ReadError {
                    form: Form::Missing,
                    at,
                });
            }
            tables.root = e;
            return Ok((tables, next));
        }
        if sets::has(tables.declared, e) {
            return Err(ReadError {
                form: Form::NotRising,
                at,
            });
        }
        let (rule, end) = read_rule(s, next)?;
        tables.declared = sets::with(tables.declared, e);
        tables.rules[e as usize] = rule;
        place = end;
    }
}
