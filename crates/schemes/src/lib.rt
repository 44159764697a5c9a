// Schemes: morphisms of words as code keeps them, by which the sets of patterns of words one after the other are worked out.
#![tactic(auto)]

ghost use Rattle.std.specs.Prelude.{◌≡◌, true, false, ◌&&◌, ℕ, ◌≤◌, ◌<◌};
ghost use Rattle.vocabularies.specs.Inner.Promises.{meaning_of};
ghost use Rattle.patterns.specs.Inner.Morphisms.{join_classes, root_morphism};
ghost use Rattle.pattern_sets.specs.Inner.PatternSets.{holds};
ghost use Rattle.pattern_sets.specs.Inner.Images.{Joined};
ghost use Rattle.schemes.specs.Inner.Schemes.{content_of, StandsFor};
ghost use Rattle.schemes.specs.Inner.Promises.{Places, PlacesContent, PlacesPair, KeepsFacts, FirstPlace, PatternOfOne, HasMore, BothHaveMore, Multiplies, Follows};

use vocabularies::{Fact, Facts, MOST_FACTS};

// A scheme of the facts of a clause. `contents` has for each place the content whose presence is the fact there, or `NO_CONTENT`. Two
// words, one after the other, break a pair if one of its contents stands in the first and the other one in the second; `befores` and
// `afters` have the places of these two for each pair. Where there is no content or no place a number stands that none has: so they are
// not options, of which `pattern_sets::joined_sets`, which takes and promises by numbers, would need the numbers again. The three are
// arrays, since that function takes two of them in either order.
#[derive(Clone, Copy, PartialEq, Eq)]
pub struct FactScheme {
    pub contents: [u8; 8],
    pub befores: [u8; 8],
    pub afters: [u8; 8],
}

// A scheme: a morphism of words as code keeps it, for the root or for the facts of a clause.
#[derive(Clone, Copy, PartialEq, Eq)]
pub enum Scheme {
    Root(u8),
    Facts(FactScheme),
}

// Contents are below 64.
const NO_CONTENT: u8 = 64;

// No pattern has a flag there.
const NOWHERE: u8 = 8;

// The pattern of the empty word, in every scheme.
pub const EMPTY: u8 = 0;

// By the root, a word that is not empty is the root alone, or other.
const ALONE: u8 = 1;

pub const OTHER: u8 = 2;

// The place of a fact.
pub fn place_of(facts: Facts, fact: Fact) -> Option<u8>
    ensures { Places facts (meaning_of fact) result }
{
    for i in 0..facts.count.min(MOST_FACTS) {
        if facts.kept[i] == fact {
            return Some(i as u8);
        }
    }
    None
}

// The content whose presence a fact is.
fn content_of(fact: Fact) -> u8
    ensures { result ≡ content_of (meaning_of fact) }
{
    match fact {
        Fact::Carried(_) => NO_CONTENT,
        Fact::Present(c) => c,
        Fact::Ordered(_, _) => NO_CONTENT,
        Fact::Valued(_, _) => NO_CONTENT,
    }
}

// The place of a content's fact; the number of facts, at which no pattern has a flag, for a content that is no fact.
fn content_place(facts: Facts, c: u8) -> u8
    ensures { PlacesContent facts c result }
{
    place_of(facts, Fact::Present(c)).unwrap_or(facts.count.min(MOST_FACTS) as u8)
}

// The place of the content of a pair that stands in the first word where the pair is broken, and of the one in the second word.
fn pair_place(facts: Facts, fact: Fact) -> (u8, u8)
    ensures { PlacesPair true facts (meaning_of fact) result.0 × PlacesPair false facts (meaning_of fact) result.1 }
{
    match fact {
        Fact::Carried(_) => (NOWHERE, NOWHERE),
        Fact::Present(_) => (NOWHERE, NOWHERE),
        Fact::Ordered(c, d) => (content_place(facts, d), content_place(facts, c)),
        Fact::Valued(_, _) => (NOWHERE, NOWHERE),
    }
}

// The scheme of a clause's facts.
pub fn facts_scheme(facts: Facts) -> Scheme
    ensures { KeepsFacts facts result }
{
    let mut contents = [NO_CONTENT; 8];
    let mut befores = [NOWHERE; 8];
    let mut afters = [NOWHERE; 8];
    for i in 0..facts.count.min(MOST_FACTS) {
        let fact = facts.kept[i];
        contents[i] = content_of(fact);
        let (before, after) = pair_place(facts, fact);
        befores[i] = before;
        afters[i] = after;
    }
    Scheme::Facts(FactScheme {
        contents,
        befores,
        afters,
    })
}

// Whether a word is empty, the root alone, or other.
pub fn root_scheme(root: u8) -> Scheme
    ensures { StandsFor result (root_morphism root) }
{
    Scheme::Root(root)
}

// The first place of a content.
fn place_in(contents: [u8; 8], c: u8) -> Option<usize>
    ensures { FirstPlace contents c result }
{
    contents.iter().position(|content| *content == c)
}

// The pattern of a word of one content.
pub fn single(r: Scheme, c: u8) -> u8
    requires { c < 64 }
    ensures { PatternOfOne r c result }
{
    match r {
        Scheme::Root(root) if root == c => ALONE,
        Scheme::Root(_) => OTHER,
        Scheme::Facts(places) => match place_in(places.contents, c) {
            Some(i) => 1 << i,
            None => EMPTY,
        },
    }
}

// A set, or none.
fn given(set: [u64; 4], is_given: bool) -> [u64; 4]
    ensures { (y : ℕ) → holds result y ≡ (is_given && holds set y) }
{
    if is_given {
        return set;
    }
    pattern_sets::empty()
}

// Whether a set has patterns other than that of the empty word.
fn has_more(set: [u64; 4]) -> bool
    ensures { HasMore set result }
{
    pattern_sets::next(set, 1).is_some()
}

fn both_have_more(a: [u64; 4], b: [u64; 4]) -> bool
    ensures { BothHaveMore a b result }
{
    has_more(a) && has_more(b)
}

// The classes of two words, one after the other: that of the one where the other is empty.
fn joined_classes(a: [u64; 4], b: [u64; 4]) -> [u64; 4]
    ensures { Joined join_classes a b result }
{
    let right = given(b, pattern_sets::has(a, EMPTY));
    let left = given(a, pattern_sets::has(b, EMPTY));
    let both = given(pattern_sets::only(OTHER), both_have_more(a, b));
    pattern_sets::union(pattern_sets::union(right, left), both)
}

// The bound on the library's count, by which `members` cannot overflow.
fn ones(word: u64) -> u32
    ensures { result ≤ 64 }
{
    u64::count_ones(word)
}

// How many patterns a set has.
fn members(set: [u64; 4]) -> u32 {
    ones(set[0]) + ones(set[1]) + ones(set[2]) + ones(set[3])
}

// The patterns of a word of the one set with a word of the other after it. The empty word changes nothing: so lists begin.
pub fn product(r: Scheme, a: [u64; 4], b: [u64; 4]) -> [u64; 4]
    ensures { Multiplies r a b result }
{
    let empty = pattern_sets::only(EMPTY);
    if pattern_sets::same(a, empty) {
        return b;
    }
    if pattern_sets::same(b, empty) {
        return a;
    }
    match r {
        Scheme::Root(_) => joined_classes(a, b),
        Scheme::Facts(places) => {
            let befores = places.befores;
            let afters = places.afters;
            if members(b) < members(a) {
                return pattern_sets::joined_sets(b, a, afters, befores);
            }
            pattern_sets::joined_sets(a, b, befores, afters)
        }
    }
}

// The patterns of a word of the set with a word of this pattern after it.
pub fn followed(r: Scheme, a: [u64; 4], p: u8) -> [u64; 4]
    ensures { Follows r a p result }
{
    let own = pattern_sets::only(p);
    if p == EMPTY {
        return a;
    }
    product(r, a, own)
}
