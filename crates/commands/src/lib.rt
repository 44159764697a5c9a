// The commands of a job, and the reading position that moves over one command at a time
// (document 01, "A job, command by command").
#![tactic(auto)]

ghost use Rattle.std.specs.Prelude.{◌≡◌, true, ◌&&◌, ◌+◌, ◌*◌, ◌^◌, ◌≤◌, ◌<◌, length, leb, Err, IsErr};
ghost use Rattle.strings.specs.Inner.Promises.{set_number};
ghost use Rattle.commands.specs.Commands.{byte, set_at, either, between, allowed, operands_of, operand_bytes, in_range, element, attribute, strings_set, all_in_range, command};
ghost use Rattle.commands.specs.Inner.Parts.{Single, stepped, part_of, past};

use strings::{LAST, StringSet};
use verdicts::Form;

// Where reading stands: an offset of the bytes.
#[derive(Clone, Copy)]
pub struct Position {
    pub at: usize,
}

// Which commands may stand at a place.
#[derive(Clone, Copy)]
pub enum Context {
    Rules,
    Attributes,
    Contents,
    Formulas,
    Templates,
    TemplateItems,
    TemplateAttributes,
    PageItems,
    PageAttributes,
    FirstStatement,
    Statements,
    Heads,
    TemplateHoldings,
    StringHoldings,
}

// A command that was read, by its first byte, with the position after it; or the refusal and its offset. Document 01 names this form: every
// decoded command is taken apart by `let .. else`.
#[derive(Clone, Copy)]
pub enum Decoded {
    Moved(u8, Position),
    Refused(Form, usize),
}

// Why bytes cannot be read, and at which offset.
#[derive(Clone, Copy)]
pub struct ReadError {
    pub form: Form,
    pub at: usize,
}

// The byte at an offset; 0 past the end.
pub fn byte_at(s: &[u8], i: usize) -> u8
    ensures { result ≡ byte s.now i }
{
    s.get(i).copied().unwrap_or(0)
}

// The number of the set of strings at an offset: eight bytes, highest first.
fn set_at(s: &[u8], i: usize) -> u64
    requires { i + 7 < 2 ^ 64 }
    ensures { result ≡ set_at s.now i }
{
    let mut number: u64 = 0;
    for k in 0..8 {
        number = number * 256 + (byte_at(s, i + k) as u64);
    }
    number
}

fn is_either(a: u8, b: u8, code: u8) -> bool
    ensures { result ≡ either a b code }
{
    code == a || code == b
}

fn is_between(low: u8, high: u8, code: u8) -> bool
    ensures { result ≡ between low high code }
{
    low <= code && code <= high
}

// Whether a command may stand at a place.
#[tactic(auto, unfolding(crate::specs::Commands::allowed))]
pub fn is_allowed(context: Context, code: u8) -> bool
    ensures { result ≡ allowed context code }
{
    match context {
        Context::Rules => is_either(0x01, 0x05, code),
        Context::Attributes => code == 0x02,
        Context::Contents => code == 0x03,
        Context::Formulas => is_between(0x10, 0x17, code),
        Context::Templates => is_either(0x20, 0x2F, code),
        Context::TemplateItems => is_between(0x21, 0x23, code) || code == 0x29,
        Context::TemplateAttributes => is_either(0x24, 0x25, code),
        Context::PageItems => is_either(0x21, 0x23, code) || code == 0x29,
        Context::PageAttributes => is_either(0x24, 0x28, code),
        Context::FirstStatement => is_between(0x30, 0x39, code),
        Context::Statements => is_between(0x30, 0x39, code) || code == 0x3F,
        Context::Heads => is_either(0x40, 0x4F, code),
        Context::TemplateHoldings => is_between(0x41, 0x46, code),
        Context::StringHoldings => is_either(0x47, 0x48, code),
    }
}

// How many bytes follow a command's first byte: an arm for each format, which become a table of numbers. Arms joined by the number become a
// table of jumps.
#[tactic(auto, unfolding(crate::specs::Commands::operand_bytes, crate::specs::Commands::operands_of))]
pub fn operand_bytes(code: u8) -> usize
    ensures { result ≡ operand_bytes code }
{
    match code {
        0x01 | 0x05 | 0x23 => 1,
        0x02 | 0x14 | 0x28 => 1,
        0x03 | 0x15 => 1,
        0x16 => 2,
        0x17 => 9,
        0x22 => 1,
        0x24 => 2,
        0x25 => 2,
        0x30 | 0x32 => 4,
        0x31 => 4,
        0x33 => 4,
        0x34 | 0x37 => 3,
        0x35 => 6,
        0x36 => 6,
        0x39 => 5,
        0x40 => 2,
        0x41 => 1,
        0x42 => 3,
        0x43 => 3,
        0x44 => 2,
        0x45 => 2,
        0x46 => 2,
        0x47 => 1,
        _ => 0,
    }
}

fn is_most(s: &[u8], i: usize, most: u8) -> bool
    ensures { result ≡ leb (byte s.now i) most }
{
    byte_at(s, i) <= most
}

fn are_most(s: &[u8], i: usize, first: u8, second: u8) -> bool
    requires { i + 1 < 2 ^ 64 }
    ensures { result ≡ (leb (byte s.now i) first && leb (byte s.now (i + 1)) second) }
{
    is_most(s, i, first) && is_most(s, i + 1, second)
}

#[tactic(auto, unfolding(crate::specs::Commands::in_range))]
fn is_element(s: &[u8], i: usize) -> bool
    ensures { result ≡ in_range element s.now i }
{
    is_between(1, 63, byte_at(s, i))
}

// An attribute, and a set that is not empty.
#[tactic(auto, unfolding(crate::specs::Commands::in_range))]
fn is_value(s: &[u8], i: usize) -> bool
    requires { i + 8 < 2 ^ 64 }
    ensures { result ≡ (in_range attribute s.now i && in_range strings_set s.now (i + 1)) }
{
    is_most(s, i, 31) && set_at(s, i + 1) != 0
}

// Whether the operands of a command that stands at an offset are in range.
#[tactic(auto, unfolding(crate::specs::Commands::in_range, crate::specs::Commands::all_in_range, crate::specs::Commands::operands_of))]
fn in_range(s: &[u8], at: usize, code: u8) -> bool
    requires { at < 2 ^ 63 }
    ensures { result ≡ all_in_range (operands_of code) s.now (at + 1) }
{
    let i = at + 1;
    match code {
        0x01 | 0x05 | 0x23 => is_element(s, i),
        0x02 | 0x14 | 0x28 => is_most(s, i, 31),
        0x03 | 0x15 => is_most(s, i, 63),
        0x16 => are_most(s, i, 63, 63),
        0x17 => is_value(s, i),
        0x22 | 0x45 | 0x46 => is_most(s, i, 7),
        0x24 => are_most(s, i, 31, LAST),
        0x25 => are_most(s, i, 31, 7),
        0x30 | 0x32 => are_most(s, i, 3, 3),
        0x31 | 0x34 | 0x37 => is_most(s, i, 3),
        0x33 => are_most(s, i, 3, LAST),
        // Two variables, a gap and a variable.
        0x35 | 0x36 => are_most(s, i, 3, 3) && are_most(s, i + 2, 7, 3),
        // A variable, a template, which has no range, and a gap.
        0x39 => is_most(s, i, 3) && is_most(s, i + 2, 7),
        0x40 | 0x42 | 0x44 => is_most(s, i + 1, 7),
        0x43 => are_most(s, i + 1, 7, LAST),
        0x47 => is_most(s, i, LAST),
        _ => true,
    }
}

impl Position {
    // Where an offset that was kept stands.
    pub fn new(at: usize) -> Position
        ensures { result ≡ record { at = at } }
    {
        Position { at }
    }

    // The position n bytes on.
    pub fn on(self, n: usize) -> Position
        requires { self.at + n < 2 ^ 64 }
        ensures { result ≡ record { at = self.at + n } }
    {
        Position { at: self.at + n }
    }

    // The position after the byte `code`, if it stands here.
    #[tactic(auto, unfolding(crate::specs::Inner::Parts::past))]
    pub fn past(self, s: &[u8], code: u8) -> Option<Position>
        ensures { result ≡ past s.now self.at code }
    {
        let at = self.at;
        if s.len() <= at {
            return None;
        }
        if s[at] != code {
            return None;
        }
        Some(Position { at: at + 1 })
    }

    // The command here, if it may stand here and is whole and in range, with the position moved over it.
    #[tactic(auto, unfolding(crate::specs::Commands::command))]
    pub fn command(self, s: &[u8], context: Context) -> Decoded
        ensures { result ≡ command context s.now self.at }
    {
        let at = self.at;
        if s.len() <= at {
            return Decoded::Refused(Form::Ended, s.len());
        }
        let code = s[at];
        if !is_allowed(context, code) {
            return Decoded::Refused(Form::NotAllowed, at);
        }
        let more = operand_bytes(code);
        if s.len() - at <= more {
            return Decoded::Refused(Form::Ended, at);
        }
        if more == 0 {
            return Decoded::Moved(code, Position { at: at + 1 });
        }
        if !in_range(s, at, code) {
            return Decoded::Refused(Form::OutOfRange, at);
        }
        Decoded::Moved(code, Position { at: at + 1 + more })
    }

    // The command here, where text and elements may stand: `21`, `29` and `23 e` are seen at once.
    #[tactic(auto, using(crate::proofs::Laws::text_moves, crate::proofs::Laws::blank_moves, crate::proofs::Laws::element_moves))]
    pub fn item_command(self, s: &[u8], context: Context) -> Decoded
        requires { (allowed context 0x21 ≡ true) × (allowed context 0x29 ≡ true) × (allowed context 0x23 ≡ true) }
        ensures { result ≡ command context s.now self.at }
    {
        let at = self.at;
        if s.len() <= at {
            return self.command(s, context);
        }
        let code = s[at];
        if code == 0x21 {
            return Decoded::Moved(0x21, Position { at: at + 1 });
        }
        if code == 0x29 {
            return Decoded::Moved(0x29, Position { at: at + 1 });
        }
        if code != 0x23 {
            return self.command(s, context);
        }
        if s.len() - at < 2 {
            return self.command(s, context);
        }
        if !is_between(1, 63, s[at + 1]) {
            return self.command(s, context);
        }
        Decoded::Moved(0x23, Position { at: at + 2 })
    }

    // The command here, where a formula may stand: `10` to `13`, which have no operand, are seen at once.
    #[tactic(auto, using(crate::proofs::Laws::bare_formula_moves))]
    pub fn formula_command(self, s: &[u8]) -> Decoded
        ensures { result ≡ command Context.Formulas s.now self.at }
    {
        let at = self.at;
        if s.len() <= at {
            return self.command(s, Context::Formulas);
        }
        let code = s[at];
        if code < 0x10 {
            return self.command(s, Context::Formulas);
        }
        if 0x13 < code {
            return self.command(s, Context::Formulas);
        }
        Decoded::Moved(code, Position { at: at + 1 })
    }

    // The command here, where one of one operand may stand: with an operand of at most `most` it is seen at once.
    pub fn name_command(self, s: &[u8], context: Context, code: u8, most: u8) -> Decoded
        requires { Single context code most }
        ensures { result ≡ command context s.now self.at }
    {
        let at = self.at;
        if s.len() <= at {
            return self.command(s, context);
        }
        if s[at] != code {
            return self.command(s, context);
        }
        if s.len() - at < 2 {
            return self.command(s, context);
        }
        if most < s[at + 1] {
            return self.command(s, context);
        }
        Decoded::Moved(code, Position { at: at + 2 })
    }

    // The command here, where an attribute with a string may stand: `24 a s` is seen at once.
    #[tactic(auto, using(crate::proofs::Laws::attribute_moves))]
    pub fn attribute_command(self, s: &[u8], context: Context) -> Decoded
        requires { allowed context 0x24 ≡ true }
        ensures { result ≡ command context s.now self.at }
    {
        let at = self.at;
        if s.len() <= at {
            return self.command(s, context);
        }
        if s[at] != 0x24 {
            return self.command(s, context);
        }
        if s.len() - at < 3 {
            return self.command(s, context);
        }
        if 31 < s[at + 1] {
            return self.command(s, context);
        }
        if LAST < s[at + 2] {
            return self.command(s, context);
        }
        Decoded::Moved(0x24, Position { at: at + 3 })
    }

    // The command here, of bytes that were read, with the position moved over it: what was tested then is not tested again.
    #[tactic(auto, using(crate::proofs::Laws::few_operands), unfolding(crate::specs::Inner::Parts::stepped))]
    pub fn step(self, s: &[u8]) -> Decoded
        ensures { result ≡ stepped s.now self.at }
    {
        let at = self.at;
        if s.len() <= at {
            return Decoded::Refused(Form::Ended, s.len());
        }
        let code = s[at];
        let more = operand_bytes(code);
        Decoded::Moved(code, Position { at: at + 1 + more })
    }

    // The byte this far on; 0 past the end.
    pub fn operand(self, s: &[u8], i: usize) -> u8
        ensures { result ≡ byte s.now (self.at + i) }
    {
        let at = self.at;
        if s.len() <= at {
            return 0;
        }
        if s.len() - at <= i {
            return 0;
        }
        s[at + i]
    }

    // The set of strings of the `17` here.
    #[tactic(auto, using(crate::proofs::Spelling::numbered_none))]
    pub fn string_set(self, s: &[u8]) -> StringSet
        ensures { set_number result ≡ set_at s.now (self.at + 2) }
    {
        let at = self.at;
        if s.len() <= at {
            return strings::of_number(0);
        }
        strings::of_number(set_at(s, at + 2))
    }
}

impl Decoded {
    // The position after the command, or why there is none.
    pub fn part(self) -> Result<Position, ReadError>
        ensures { result ≡ part_of self }
    {
        match self {
            Decoded::Moved(_, next) => Ok(next),
            Decoded::Refused(form, at) => Err(ReadError { form, at }),
        }
    }

    // Why there is no command here, where there is none.
    pub fn refusal(self) -> ReadError
        requires { IsErr (part_of self) }
        ensures { part_of self ≡ Err result }
    {
        match self {
            Decoded::Moved(_, _) => unreachable!(),
            Decoded::Refused(form, at) => ReadError { form, at },
        }
    }
}
