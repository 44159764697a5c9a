// What a statement makes of each variable (document 01, "Covering, and the language of a show"): from which values, and how. Code that
// applies the transfer functions goes by these few ways; the acts are told apart here alone.
#![tactic(auto)]

ghost use Rattle.std.specs.Prelude.{◌≡◌, ◌+◌, ◌≤◌, ◌&&◌, ltb};
ghost use Rattle.sets.specs.Sets.{member};
ghost use Rattle.programs.specs.Inner.Promises.{as_act};
ghost use Rattle.transfers.specs.Inner.Ways.{made_by, string_made_by, sources, string_sources, among, meets};

use programs::Act;

// How the value of a template variable is made.
#[derive(Clone, Copy)]
pub enum Made {
    // It is the value that a template variable had.
    Value(u8),
    // A template, just loaded.
    Template(u8),
    // The value of a template variable, with another's in place of a gap.
    Plugged(u8, u8, u8),
    // The value of a template variable, with a string variable's at an attribute gap.
    Filled(u8, u8, u8),
}

// How the value of a string variable is made.
#[derive(Clone, Copy)]
pub enum MadeString {
    // It is the value that a string variable had.
    Value(u8),
    One(u8),
    Any,
}

// What an act makes of template variable x.
pub fn template_made(act: Act, x: u8) -> Made
    ensures { result ≡ made_by (as_act act) x }
{
    match act {
        Act::CopyTemplate(y, z) if x == y => Made::Value(z),
        Act::SetTemplate(y, t) if x == y => Made::Template(t),
        Act::Plug(y, z, g, w) if x == y => Made::Plugged(z, g, w),
        Act::PlugString(y, z, h, w) if x == y => Made::Filled(z, h, w),
        _ => Made::Value(x),
    }
}

// What an act makes of string variable y.
pub fn string_made(act: Act, y: u8) -> MadeString
    ensures { result ≡ string_made_by (as_act act) y }
{
    match act {
        Act::CopyString(x, z) if y == x => MadeString::Value(z),
        Act::SetString(x, s) if y == x => MadeString::One(s),
        Act::AnyString(x) if y == x => MadeString::Any,
        _ => MadeString::Value(y),
    }
}

// Where the variables of each sort begin in a set of variables, as `40` numbers them.
const FIRST_TEMPLATE: u8 = 0;

const FIRST_STRING: u8 = 4;

// Whether variable x of the sort whose variables begin there is in such a set.
fn has_variable(set: u64, first: u8, x: u8) -> bool
    requires { first ≤ 4 }
    ensures { result ≡ (ltb x 4 && member set (first + x)) }
{
    x < 4 && sets::has(set, first + x)
}

// Whether a value of template variable x is made from a variable of the set. One that is made from none counts as made from x.
pub fn made_from(way: Made, x: u8, set: u64) -> bool
    ensures { result ≡ meets (among set) (sources x way) }
{
    match way {
        Made::Value(z) => has_variable(set, FIRST_TEMPLATE, z),
        Made::Template(_) => has_variable(set, FIRST_TEMPLATE, x),
        Made::Plugged(z, _, y) => {
            has_variable(set, FIRST_TEMPLATE, z) || has_variable(set, FIRST_TEMPLATE, y)
        }
        Made::Filled(z, _, y) => {
            has_variable(set, FIRST_TEMPLATE, z) || has_variable(set, FIRST_STRING, y)
        }
    }
}

// The same of a value of string variable y.
pub fn string_made_from(way: MadeString, y: u8, set: u64) -> bool
    ensures { result ≡ meets (among set) (string_sources y way) }
{
    match way {
        MadeString::Value(z) => has_variable(set, FIRST_STRING, z),
        MadeString::One(_) | MadeString::Any => has_variable(set, FIRST_STRING, y),
    }
}
