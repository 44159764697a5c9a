// Sets of strings, and what an attribute gap can take. How many strings are named stands here alone.
#![tactic(auto)]

ghost use Rattle.std.specs.Prelude.{◌≡◌, true, false, not, ◌&&◌, ◌||◌, ℕ, ◌≤◌, ◌<◌, eqb, ltb};
ghost use Rattle.sets.specs.Inner.Promises.{NextMember};
ghost use Rattle.strings.specs.Strings.{strings};
ghost use Rattle.strings.specs.Inner.Promises.{set_number, has_string, StringsWithin, holds_value, ValuesWithin, NoValues, NothingToTake};

// A set of named strings.
#[derive(Clone, Copy, PartialEq, Eq)]
pub struct StringSet {
    pub word: u64,
}

// Strings: some of the named ones, or all that exist. As an `Option` of a set `None` would be all strings, and would read as none.
#[derive(Clone, Copy)]
pub enum Values {
    // All that exist: there are others than the named ones.
    Any,
    Named(StringSet),
}

// What an attribute gap can take at a show: strings or, where it can still be open, no string, so that its attribute is absent. Each of
// the two says something whatever the other is.
#[derive(Clone, Copy)]
pub struct AttributeValues {
    pub strings: Values,
    pub absent: bool,
}

// The last of the named strings, and the number that stands for every other string: to a fact of a clause it is a string like the others,
// which the definitions count as string 64.
pub const LAST: u8 = 63;

pub const OUTSIDE: u8 = 64;

pub fn none() -> StringSet
    ensures { (s : ℕ) → has_string result s ≡ false }
{
    StringSet { word: 0 }
}

pub fn all() -> StringSet
    ensures { (s : ℕ) → has_string result s ≡ ltb s strings }
{
    StringSet {
        word: 0xFFFF_FFFF_FFFF_FFFF,
    }
}

// The set of a number: bit i, counted from the lowest, stands for string i.
pub fn of_number(m: u64) -> StringSet
    ensures { set_number result ≡ m }
{
    StringSet { word: m }
}

pub fn has(set: StringSet, s: u8) -> bool
    ensures { result ≡ has_string set s }
{
    sets::is_member(set.word, s)
}

pub fn with(set: StringSet, s: u8) -> StringSet
    requires { s < strings }
    ensures { (k : ℕ) → has_string result k ≡ (eqb k s || has_string set k) }
{
    StringSet {
        word: sets::with(set.word, s),
    }
}

// Here and in the next two the operation of words stands alone: one function with the operation as an argument would be no shorter.
pub fn union(a: StringSet, b: StringSet) -> StringSet
    ensures { (k : ℕ) → has_string result k ≡ (has_string a k || has_string b k) }
{
    StringSet {
        word: sets::union(a.word, b.word),
    }
}

pub fn common(a: StringSet, b: StringSet) -> StringSet
    ensures { (k : ℕ) → has_string result k ≡ (has_string a k && has_string b k) }
{
    StringSet {
        word: sets::common(a.word, b.word),
    }
}

// The strings of `a` that `b` lacks.
pub fn without(a: StringSet, b: StringSet) -> StringSet
    ensures { (k : ℕ) → has_string result k ≡ (has_string a k && not (has_string b k)) }
{
    StringSet {
        word: sets::without(a.word, b.word),
    }
}

// Whether every string of `a` is one of `b`.
pub fn is_within(a: StringSet, b: StringSet) -> bool
    ensures { StringsWithin a b result }
{
    sets::is_within(a.word, b.word)
}

// The first string of a set at a place or after it.
pub fn next(set: StringSet, from: u8) -> Option<u8>
    requires { from ≤ strings }
    ensures { NextMember (set_number set) from result }
{
    sets::next_member(set.word, from)
}

pub fn no_values() -> Values
    ensures { (s : ℕ) → holds_value result s ≡ false }
{
    Values::Named(none())
}

pub fn any_value() -> Values
    ensures { (s : ℕ) → holds_value result s ≡ true }
{
    Values::Any
}

pub fn one_value(s: u8) -> Values
    requires { s < strings }
    ensures { (k : ℕ) → holds_value result k ≡ eqb k s }
{
    Values::Named(with(none(), s))
}

// What is in either.
pub fn values_union(a: Values, b: Values) -> Values
    ensures { (s : ℕ) → holds_value result s ≡ (holds_value a s || holds_value b s) }
{
    match (a, b) {
        (Values::Named(a), Values::Named(b)) => Values::Named(union(a, b)),
        _ => Values::Any,
    }
}

// Whether `b` has whatever `a` has. Only any string covers any string: other strings than the named ones exist.
pub fn values_within(a: Values, b: Values) -> bool
    ensures { ValuesWithin a b result }
{
    match (a, b) {
        (_, Values::Any) => true,
        (Values::Any, Values::Named(_)) => false,
        (Values::Named(a), Values::Named(b)) => is_within(a, b),
    }
}

// Whether there is no string.
pub fn is_empty(values: Values) -> bool
    ensures { NoValues values result }
{
    match values {
        Values::Any => false,
        Values::Named(set) => next(set, 0).is_none(),
    }
}

// Whether an attribute gap has nothing to take: neither a string nor absence.
pub fn takes_nothing(values: AttributeValues) -> bool
    ensures { NothingToTake values result }
{
    if values.absent {
        return false;
    }
    is_empty(values.strings)
}
