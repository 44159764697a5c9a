// Clauses of a rule: the patterns that an attribute can have, and the patterns under which a clause is true.
#![tactic(auto)]

ghost use Rattle.std.specs.Prelude.{◌≡◌, not, ◌&&◌, ◌||◌, [], ℕ, ◌≤◌, ◌<◌, eqb};
ghost use Rattle.strings.specs.Inner.Promises.{has_string};
ghost use Rattle.vocabularies.specs.Inner.Promises.{meaning_of};
ghost use Rattle.patterns.specs.Inner.Patterns.{flagged};
ghost use Rattle.pattern_sets.specs.Inner.PatternSets.{holds};
ghost use Rattle.clauses.specs.Inner.Promises.{alone, agree, TellsApart, IsPattern, WithName, WithAttribute, AttributesOf, Alike, AddsPatterns, ValuePatterns, FlaggedBy, UnbrokenBy, TruePatterns, ClauseFails};

use commands::Position;
use schemes::EMPTY;
use strings::{AttributeValues, OUTSIDE, StringSet, Values};
use vocabularies::{Fact, Facts, FormulaHere, MOST_FACTS};

// Whether attribute a with string s alone has the flag of a fact.
fn is_flagged(fact: Fact, a: u8, s: u8) -> bool
    ensures { result ≡ flagged (alone a s) [] (meaning_of fact) }
{
    match fact {
        Fact::Carried(of) => of == a,
        Fact::Present(_) => false,
        Fact::Ordered(_, _) => false,
        Fact::Valued(of, set) => of == a && !strings::has(set, s),
    }
}

// The strings that a fact about attribute a tells from the others.
fn told_apart(fact: Fact, a: u8) -> StringSet
    ensures { TellsApart (meaning_of fact) a result }
{
    match fact {
        Fact::Carried(_) => strings::none(),
        Fact::Present(_) => strings::none(),
        Fact::Ordered(_, _) => strings::none(),
        Fact::Valued(of, set) => {
            if of != a {
                return strings::none();
            }
            set
        }
    }
}

// The pattern of attribute a with string s alone; `OUTSIDE` stands for every string outside the named ones.
pub fn attribute_pattern(facts: Facts, a: u8, s: u8) -> u8
    ensures { IsPattern facts a s result }
{
    let mut pattern = 0;
    for i in 0..facts.count.min(MOST_FACTS) {
        if is_flagged(facts.kept[i], a, s) {
            pattern |= 1 << i;
        }
    }
    pattern
}

// Names with one more. No attribute has a number of 64 or more.
fn with_name(names: u64, a: u8) -> u64
    ensures { WithName names a result }
{
    if 64 <= a {
        return names;
    }
    sets::with(names, a)
}

// Names with that of the attribute that a fact is about.
fn with_attribute(names: u64, fact: Fact) -> u64
    ensures { WithAttribute names (meaning_of fact) result }
{
    match fact {
        Fact::Carried(a) => with_name(names, a),
        Fact::Present(_) => names,
        Fact::Ordered(_, _) => names,
        Fact::Valued(a, _) => with_name(names, a),
    }
}

// The names of the attributes that some fact is about. Every other attribute has no flag.
pub fn attributes_of(facts: Facts) -> u64
    ensures { AttributesOf facts result }
{
    let mut names = 0;
    for i in 0..facts.count.min(MOST_FACTS) {
        names = with_attribute(names, facts.kept[i]);
    }
    names
}

// Of a set of strings those that stand with s inside the told ones, or outside of them.
fn with_same_flag(set: StringSet, told: StringSet, s: u8) -> StringSet
    ensures { (k : ℕ) → has_string result k ≡ (has_string set k && agree (has_string told s) (has_string told k)) }
{
    if strings::has(told, s) {
        return strings::common(set, told);
    }
    strings::without(set, told)
}

// The strings that no fact about attribute a tells from s.
fn alike(facts: Facts, a: u8, s: u8) -> StringSet
    ensures { Alike facts a s result }
{
    let mut set = strings::all();
    for i in 0..facts.count.min(MOST_FACTS) {
        set = with_same_flag(set, told_apart(facts.kept[i], a), s);
    }
    set
}

// A set with the patterns of attribute a over the strings of a set. Strings alike are passed at once.
fn with_patterns(facts: Facts, set: [u64; 4], a: u8, named: StringSet) -> [u64; 4]
    ensures { AddsPatterns facts set a named result }
{
    let mut larger = set;
    let mut left = named;
    let mut from = 0;
    while let Some(s) = strings::next(left, from) {
        let more = pattern_sets::with(larger, attribute_pattern(facts, a, s));
        larger = more;
        left = strings::without(left, alike(facts, a, s));
        from = s + 1;
    }
    larger
}

// The pattern of an absent attribute, which has no flag, if it can be absent.
fn absence_patterns(absent: bool) -> [u64; 4]
    ensures { (x : ℕ) → holds result x ≡ («absent» && eqb x 0) }
{
    if absent {
        return pattern_sets::only(EMPTY);
    }
    pattern_sets::empty()
}

// The patterns of attribute a over what it can take: absence, and strings.
pub fn value_patterns(facts: Facts, a: u8, values: AttributeValues) -> [u64; 4]
    ensures { ValuePatterns facts a values result }
{
    let absent = absence_patterns(values.absent);
    match values.strings {
        Values::Any => {
            let others = pattern_sets::with(absent, attribute_pattern(facts, a, OUTSIDE));
            with_patterns(facts, others, a, strings::all())
        }
        Values::Named(set) => with_patterns(facts, absent, a, set),
    }
}

// All patterns, or none.
fn all_if(is_true: bool) -> [u64; 4]
    ensures { (x : ℕ) → x < 256 → holds result x ≡ is_true }
{
    if is_true {
        return [0xFFFF_FFFF_FFFF_FFFF; 4];
    }
    pattern_sets::empty()
}

// The patterns that have the flag of a fact.
fn flagged_by(facts: Facts, fact: Fact) -> [u64; 4]
    ensures { FlaggedBy facts (meaning_of fact) result }
{
    match schemes::place_of(facts, fact) {
        Some(place) => pattern_sets::flagged(place),
        None => pattern_sets::empty(),
    }
}

// The patterns that are not in a set.
fn complement(set: [u64; 4]) -> [u64; 4]
    ensures { (x : ℕ) → x < 256 → holds result x ≡ not (holds set x) }
{
    pattern_sets::difference(all_if(true), set)
}

// The patterns under which a fact is not broken: no d stands before a c; attribute a is absent, or has a string of the set.
fn unbroken_by(facts: Facts, fact: Fact) -> [u64; 4]
    ensures { UnbrokenBy facts (meaning_of fact) result }
{
    complement(flagged_by(facts, fact))
}

// The patterns under which a formula is true, and the position after it.
#[derive(Clone, Copy)]
pub struct Truths {
    pub set: [u64; 4],
    pub next: Position,
}

impl Truths {
    // The patterns under which this formula and the one after it are true. This and the next method are one step with another operation
    // on sets, of which each one's promise is plainer than one by `F.post` for both.
    fn and(self, second: Truths) -> Truths
        ensures { (result.next ≡ second.next) × ((x : ℕ) → holds result.set x ≡ (holds self.set x && holds second.set x)) }
    {
        Truths {
            set: pattern_sets::intersection(self.set, second.set),
            next: second.next,
        }
    }

    // Those under which one of them is true.
    fn or(self, second: Truths) -> Truths
        ensures { (result.next ≡ second.next) × ((x : ℕ) → holds result.set x ≡ (holds self.set x || holds second.set x)) }
    {
        Truths {
            set: pattern_sets::union(self.set, second.set),
            next: second.next,
        }
    }

    // Those under which this formula is not true.
    fn not(self) -> Truths
        ensures { (result.next ≡ self.next) × ((x : ℕ) → x < 256 → holds result.set x ≡ not (holds self.set x)) }
    {
        Truths {
            set: complement(self.set),
            next: self.next,
        }
    }
}

// The patterns under which the formula here is true. The forms stand in the order of source 000's grammar.
fn true_patterns(s: &[u8], here: Position, facts: Facts) -> Truths
    ensures forward { here.at ≤ result.next.at }
    ensures truths { TruePatterns facts s.now here.at result }
{
    let formula = vocabularies::formula_here(s, here);
    match formula {
        FormulaHere::Conj(next) => {
            let first = true_patterns(s, next, facts);
            let second = true_patterns(s, first.next, facts);
            first.and(second)
        }
        FormulaHere::Disj(next) => {
            let first = true_patterns(s, next, facts);
            let second = true_patterns(s, first.next, facts);
            first.or(second)
        }
        FormulaHere::Neg(next) => {
            let only = true_patterns(s, next, facts);
            only.not()
        }
        FormulaHere::Truth(next) => Truths {
            set: all_if(true),
            next,
        },
        FormulaHere::Attr(a, next) => Truths {
            set: flagged_by(facts, Fact::Carried(a)),
            next,
        },
        FormulaHere::Content(c, next) => Truths {
            set: flagged_by(facts, Fact::Present(c)),
            next,
        },
        FormulaHere::Order(c, d, next) => Truths {
            set: unbroken_by(facts, Fact::Ordered(c, d)),
            next,
        },
        FormulaHere::Value(a, m, next) => Truths {
            set: unbroken_by(facts, Fact::Valued(a, m)),
            next,
        },
        FormulaHere::Nothing => Truths {
            set: all_if(false),
            next: here,
        },
    }
}

// Whether a formula is false under some pattern, and the position after it.
#[derive(Clone, Copy)]
pub struct Tested {
    pub fails: bool,
    pub next: Position,
}

// The formula here, for an element that can have the patterns of a set.
pub fn clause_fails(s: &[u8], here: Position, facts: Facts, patterns: [u64; 4]) -> Tested
    ensures forward { here.at ≤ result.next.at }
    ensures told { ClauseFails facts patterns s.now here.at result }
{
    let truths = true_patterns(s, here, facts);
    let falsehoods = complement(truths.set);
    let fails = !pattern_sets::is_empty(pattern_sets::intersection(patterns, falsehoods));
    Tested {
        fails,
        next: truths.next,
    }
}
