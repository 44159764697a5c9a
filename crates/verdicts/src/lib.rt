// What a call answers: acceptance, or a refusal with its kind and place (document 01, "Verdicts").
#![tactic(auto)]

ghost use Rattle.std.specs.Prelude.{◌≡◌, Some};
ghost use Rattle.verdicts.specs.Printed.{cover_numbers, fault_numbers, element_fault, refusal_numbers, unreadable, numbers_of, verdict_of, bytes_written};
ghost use Rattle.verdicts.specs.Inner.Acceptance.{accepts};
ghost use Rattle.verdicts.specs.Inner.Spelled.{spelled};

use std::fmt::{self, Display, Formatter};

// Why bytes cannot be read, with the number that document 01 prints for it.
#[derive(Clone, Copy, PartialEq, Eq)]
pub enum Form {
    // More than 65,535 bytes.
    TooLong = 1,
    // The bytes end in a command, or before one.
    Ended = 2,
    // A command that is unknown or not allowed there, or a byte after the end.
    NotAllowed = 3,
    // An operand outside its range.
    OutOfRange = 4,
    // Not rising, a rule given twice, an attribute twice in one element.
    NotRising = 5,
    // Nesting or count too high.
    TooMany = 6,
    // Too many facts in a clause.
    TooManyFacts = 7,
    // An element without a rule, or a template or point that is not there.
    Missing = 8,
}

// Where bytes cannot be read: an offset of a slice. A job is slice 0; a page is slice 1 beside its vocabulary.
#[derive(Clone, Copy)]
pub struct Place {
    pub at: usize,
    pub slice: usize,
}

// What a proposal does not cover.
#[derive(Clone, Copy)]
pub enum Cover {
    // 9: the start, at the lowest such variable.
    Start(usize),
    // 10: the step from a point to a next point, at the lowest such variable.
    Step {
        point: usize,
        next: usize,
        variable: usize,
    },
}

// What is wrong in a page that a point shows. A page that is judged alone has point 0 and template 0.
#[derive(Clone, Copy)]
pub enum Fault {
    // 11: a page of this root template, the lowest such, is not exactly the root element.
    NotRoot {
        point: usize,
        template: usize,
    },
    // 12: the lowest wrong element, whose `23` stands at this offset, carries in some page an attribute that is not allowed.
    AttributeNotAllowed {
        point: usize,
        template: usize,
        at: usize,
    },
    // 14: it carries none in any page, but some page gives it a content that is not allowed.
    ContentNotAllowed {
        point: usize,
        template: usize,
        at: usize,
    },
    // 15: neither is so, but the clause at this place of its rule, from 0, fails in some page, and none before it does in any.
    ClauseFails {
        point: usize,
        clause: usize,
        at: usize,
    },
}

// Which part of its rule a wrong element breaks (document 02, F-6).
#[derive(Clone, Copy)]
pub enum Breach {
    // The allowed attributes.
    Attribute,
    // The allowed contents.
    Content,
    // The clause at this place, from 0.
    Clause(usize),
}

// The fault of an element of a template, whose `23` stands at this offset, by what it breaks.
pub fn element_fault(point: usize, template: usize, at: usize, breach: Breach) -> Fault
    ensures { result ≡ element_fault point template at breach }
{
    match breach {
        Breach::Attribute => Fault::AttributeNotAllowed {
            point,
            template,
            at,
        },
        Breach::Content => Fault::ContentNotAllowed {
            point,
            template,
            at,
        },
        Breach::Clause(clause) => Fault::ClauseFails { point, clause, at },
    }
}

#[derive(Clone, Copy)]
pub enum Refusal {
    Form(Form, Place),
    Cover(Cover),
    Page(Fault),
    // 13: what is lent is too short; this many numbers or bytes are needed.
    NoRoom(usize),
}

// Document 01 names this form: an enum whose refusal case holds an enum of the kinds, with their places.
#[derive(Clone, Copy)]
pub enum Verdict {
    Accepted,
    Refused(Refusal),
}

// The refusal of bytes that cannot be read.
pub fn unreadable(form: Form, at: usize, slice: usize) -> Refusal
    ensures { result ≡ unreadable form at slice }
{
    Refusal::Form(form, Place { at, slice })
}

// What a call that writes answers (document 02): how many bytes it has written, or a refusal.
pub type Writing = Result<usize, Refusal>;

// The verdict of an answer: what is not refused is accepted. It bears the name of the definition that clauses cite, as `numbers_of` does, and
// so neither is called as a `From`.
pub fn verdict_of<T: Drop>(answer: Result<T, Refusal>) -> Verdict
    ensures { result ≡ verdict_of answer }
{
    match answer {
        Ok(_) => Verdict::Accepted,
        Err(refusal) => Verdict::Refused(refusal),
    }
}

// The number of bytes written: none by a refusal.
pub fn bytes_written(answer: Writing) -> usize
    ensures { result ≡ bytes_written answer }
{
    answer.unwrap_or(0)
}

// Whether a verdict is acceptance.
pub fn is_accepted(v: Verdict) -> bool
    ensures { result ≡ accepts v }
{
    matches!(v, Verdict::Accepted)
}

// A verdict as document 01 prints it: the number, and the places, unused ones 0.
#[derive(Clone, Copy)]
pub struct Numbers {
    pub n: usize,
    pub a: usize,
    pub b: usize,
    pub c: usize,
}

impl Display for Numbers {
    ghost output = { λ v. Some (spelled v) };

    fn fmt<W: fmt::Write>(&self, f: &mut Formatter<W>) -> fmt::Result {
        let Numbers { n, a, b, c } = *self;
        write!(f, "{n} {a} {b} {c}")
    }
}

impl From<Cover> for Numbers {
    ghost from_gives = { λ c n. n ≡ cover_numbers c };

    fn from(c: Cover) -> Numbers {
        match c {
            Cover::Start(variable) => Numbers {
                n: 9,
                a: 0,
                b: 0,
                c: variable,
            },
            Cover::Step {
                point,
                next,
                variable,
            } => Numbers {
                n: 10,
                a: point,
                b: next,
                c: variable,
            },
        }
    }
}

impl From<Fault> for Numbers {
    ghost from_gives = { λ f n. n ≡ fault_numbers f };

    fn from(f: Fault) -> Numbers {
        match f {
            Fault::NotRoot { point, template } => Numbers {
                n: 11,
                a: point,
                b: template,
                c: 0,
            },
            Fault::AttributeNotAllowed {
                point,
                template,
                at,
            } => Numbers {
                n: 12,
                a: point,
                b: template,
                c: at,
            },
            Fault::ContentNotAllowed {
                point,
                template,
                at,
            } => Numbers {
                n: 14,
                a: point,
                b: template,
                c: at,
            },
            Fault::ClauseFails { point, clause, at } => Numbers {
                n: 15,
                a: point,
                b: clause,
                c: at,
            },
        }
    }
}

impl From<Refusal> for Numbers {
    ghost from_gives = { λ r n. n ≡ refusal_numbers r };

    fn from(r: Refusal) -> Numbers {
        match r {
            Refusal::Form(form, place) => Numbers {
                n: form as usize,
                a: place.at,
                b: place.slice,
                c: 0,
            },
            Refusal::Cover(cover) => cover.into(),
            Refusal::Page(fault) => fault.into(),
            Refusal::NoRoom(needed) => Numbers {
                n: 13,
                a: needed,
                b: 0,
                c: 0,
            },
        }
    }
}

impl From<Verdict> for Numbers {
    ghost from_gives = { λ v n. n ≡ numbers_of v };

    fn from(v: Verdict) -> Numbers {
        match v {
            Verdict::Accepted => Numbers {
                n: 0,
                a: 0,
                b: 0,
                c: 0,
            },
            Verdict::Refused(refusal) => refusal.into(),
        }
    }
}

// The four numbers of a verdict.
pub fn numbers_of(v: Verdict) -> Numbers
    ensures { result ≡ numbers_of v }
{
    Numbers::from(v)
}
