// Graphs: what a summary of a template variable holds, as words. No crate above this one knows which word an item has.
#![tactic(auto)]

ghost use Rattle.std.specs.Prelude.{◌≡◌, true, false, ℕ, ◌+◌, ◌*◌, ◌<◌, eqb};
ghost use Rattle.std.proofs.Math.Option.{Option};
ghost use Rattle.sets.specs.Sets.{member};
ghost use Rattle.strings.specs.Inner.Promises.{holds_value, can_take};
ghost use Rattle.summaries.specs.Proposal.{root, edge, string, gap_from, attribute_gap_from};
ghost use Rattle.summaries.specs.Summaries.{Summary};
ghost use Rattle.summaries.specs.Languages.{closed_summary, takes};
ghost use Rattle.summaries.specs.Inner.Listed.{HoldingFits, meaning_of};
ghost use Rattle.graphs.specs.Inner.Graphs.{holds, Keeps, SameGraph, Forgotten, nothing, adding};
ghost use Rattle.graphs.specs.Inner.Promises.{SlotOf, OtherWord, JoinsWord, Joins, added_at, rootless, without_gap, without_attribute_gap};

use strings::{AttributeValues, Values};
use summaries::Claim;

// The words of a graph, lent as `&Graph` and `&mut Graph`: by value they are too dear. They are no struct: each function tells what they
// keep of a summary that it names, so a struct would have no invariant of its own.
pub type Graph = [u64; WORDS];

// Where the words of each sort of item begin: the roots; the origins of each gap, and of each attribute gap; the templates at which
// each attribute gap takes any string; for each template and gap its edges, and for each template and attribute gap its strings.
const ROOTS: usize = 0;

const ORIGINS: usize = 1;

const ATTRIBUTE_ORIGINS: usize = 9;

const ANY_STRINGS: usize = 17;

const EDGES: usize = 32;

const STRINGS: usize = 288;

const WORDS: usize = 544;

// Where an item stands among the words.
#[derive(Clone, Copy)]
struct Slot {
    word: usize,
    bit: u8,
}

// The graph that holds nothing.
pub fn none() -> Graph
    ensures { Keeps result nothing }
{
    [0u64; WORDS]
}

// The word of a template and a gap, from a first word on.
fn word_at(first: usize, n: u8, g: u8) -> usize
    requires { first < 289 }
    ensures { (result < 544) × (n < 32 → g < 8 → result ≡ first + n * 8 + g) }
{
    first + (n % 32) as usize * 8 + (g % 8) as usize
}

pub fn roots(graph: &Graph) -> u64
    ensures { (n : ℕ) → member result n ≡ holds graph.now (root n) }
{
    graph[ROOTS]
}

// The templates to which gap g of template n has edges.
pub fn edges(graph: &Graph, n: u8, g: u8) -> u64
    ensures { n < 32 → g < 8 → (m : ℕ) → member result m ≡ holds graph.now (edge n g m) }
{
    graph[word_at(EDGES, n, g)]
}

// The strings that attribute gap h of template n can take.
pub fn strings_at(graph: &Graph, n: u8, h: u8) -> Values
    ensures { n < 32 → h < 8 → (t : ℕ) → holds_value result t ≡ holds graph.now (string n h t) }
{
    let takers = graph[ANY_STRINGS + (h % 8) as usize];
    if sets::has(takers, n % 64) {
        return Values::Any;
    }
    Values::Named(strings::of_number(graph[word_at(STRINGS, n, h)]))
}

// The templates from which open gap g may come. Gaps and attribute gaps have their own words and their own claims, here and below: one
// function for both would take the sort as an argument and have a contract by cases.
pub fn origins(graph: &Graph, g: u8) -> u64
    ensures { g < 8 → (n : ℕ) → member result n ≡ holds graph.now (gap_from g n) }
{
    graph[ORIGINS + (g % 8) as usize]
}

// The templates from which open attribute gap h may come.
pub fn attribute_origins(graph: &Graph, h: u8) -> u64
    ensures { h < 8 → (n : ℕ) → member result n ≡ holds graph.now (attribute_gap_from h n) }
{
    graph[ATTRIBUTE_ORIGINS + (h % 8) as usize]
}

// What attribute gap h of template n takes in a closed graph: the strings there and, where the template is an origin of h, absence.
pub fn attribute_values(graph: &Graph, n: u8, h: u8) -> AttributeValues
    ensures { n < 32 → h < 8 → (o : Option ℕ) → can_take result o ≡ takes (holds graph.now) n h o }
{
    AttributeValues {
        strings: strings_at(graph, n, h),
        absent: sets::has(attribute_origins(graph, h), n % 64),
    }
}

fn slot_of(item: Claim) -> Slot
    ensures { SlotOf item result }
{
    match item {
        Claim::Root(n) => Slot {
            word: ROOTS,
            bit: n % 64,
        },
        Claim::Edge(n, g, m) => Slot {
            word: word_at(EDGES, n, g),
            bit: m % 64,
        },
        Claim::String(n, h, t) => Slot {
            word: word_at(STRINGS, n, h),
            bit: t % 64,
        },
        Claim::AnyString(n, h) => Slot {
            word: ANY_STRINGS + (h % 8) as usize,
            bit: n % 64,
        },
        Claim::GapFrom(g, n) => Slot {
            word: ORIGINS + (g % 8) as usize,
            bit: n % 64,
        },
        Claim::AttributeGapFrom(h, n) => Slot {
            word: ATTRIBUTE_ORIGINS + (h % 8) as usize,
            bit: n % 64,
        },
    }
}

// The graph holds what an item says, besides what it held.
pub fn add(graph: &mut Graph, item: Claim)
    ensures { HoldingFits (meaning_of item) → (R : Summary) → Keeps graph.old R → Keeps graph.new (adding (meaning_of item) R) }
{
    let slot = slot_of(item);
    let i = slot.word;
    graph[i] = sets::with(graph[i], slot.bit);
}

// The other word in which what an item says may be held: a string is held by itself, or because any string is at its place. An item
// that has no other word has its own.
fn other_word(item: Claim, own: usize) -> usize
    requires { own < 544 }
    ensures { (result < 544) × OtherWord item result }
{
    match item {
        Claim::String(_, h, _) => ANY_STRINGS + (h % 8) as usize,
        Claim::AnyString(n, h) => word_at(STRINGS, n, h),
        _ => own,
    }
}

// The graph holds nothing of what an item says, and nothing that it did not hold. What else is in the words of the item goes with it.
pub fn forget(graph: &mut Graph, item: Claim)
    ensures { HoldingFits (meaning_of item) → (R : Summary) → Keeps graph.old R → Forgotten (meaning_of item) R graph.new }
{
    let slot = slot_of(item);
    let i = slot.word;
    graph[i] = 0;
    let k = other_word(item, i);
    graph[k] = 0;
}

// Gap g of template n also has edges to the templates of a set.
fn add_edges_at(graph: &mut Graph, n: u8, g: u8, to: u64)
    ensures { n < 32 → g < 8 → (R : Summary) → Keeps graph.old R → Keeps graph.new (added_at false g (member to) (λ k. eqb k n) R) }
{
    let i = word_at(EDGES, n, g);
    graph[i] = sets::union(graph[i], to);
}

// Attribute gap h of template n can also take these values.
fn add_strings_at(graph: &mut Graph, n: u8, h: u8, values: Values)
    ensures { n < 32 → h < 8 → (R : Summary) → Keeps graph.old R → Keeps graph.new (added_at true h (holds_value values) (λ k. eqb k n) R) }
{
    match values {
        Values::Any => {
            let i = ANY_STRINGS + (h % 8) as usize;
            graph[i] = sets::with(graph[i], n % 64);
        }
        Values::Named(set) => {
            let i = word_at(STRINGS, n, h);
            graph[i] = sets::union(graph[i], set.word);
        }
    }
}

// Gap g also has edges from the templates of one set to those of another.
pub fn add_edges(graph: &mut Graph, from: u64, g: u8, to: u64)
    ensures { g < 8 → (R : Summary) → Keeps graph.old R → Keeps graph.new (added_at false g (member to) (member from) R) }
{
    let mut next = sets::next_member(from, 0);
    while let Some(n) = next {
        if 32 <= n {
            return;
        }
        add_edges_at(graph, n, g, to);
        next = sets::next_member(from, n + 1);
    }
}

// Attribute gap h of the templates of a set can also take these values. The loop is that of `add_edges`: with the step as a closure it would
// need a contract of what each call does to the graph, which is longer than the loop.
pub fn add_strings(graph: &mut Graph, at: u64, h: u8, values: Values)
    ensures { h < 8 → (R : Summary) → Keeps graph.old R → Keeps graph.new (added_at true h (holds_value values) (member at) R) }
{
    let mut next = sets::next_member(at, 0);
    while let Some(n) = next {
        if 32 <= n {
            return;
        }
        add_strings_at(graph, n, h, values);
        next = sets::next_member(at, n + 1);
    }
}

// The graph holds no root.
pub fn drop_roots(graph: &mut Graph)
    ensures { (R : Summary) → Keeps graph.old R → Keeps graph.new (rootless R) }
{
    graph[ROOTS] = 0;
}

// Open gap g comes from no template.
pub fn drop_origins(graph: &mut Graph, g: u8)
    ensures { g < 8 → (R : Summary) → Keeps graph.old R → Keeps graph.new (without_gap g R) }
{
    graph[ORIGINS + (g % 8) as usize] = 0;
}

// Open attribute gap h comes from no template.
pub fn drop_attribute_origins(graph: &mut Graph, h: u8)
    ensures { h < 8 → (R : Summary) → Keeps graph.old R → Keeps graph.new (without_attribute_gap h R) }
{
    graph[ATTRIBUTE_ORIGINS + (h % 8) as usize] = 0;
}

// The closed graph of a show: each origin of a gap also gets an edge to template 0. Origins of attribute gaps stay, and tell where an
// attribute can be absent.
pub fn close(graph: &mut Graph)
    ensures { (R : Summary) → Keeps graph.old R → Keeps graph.new (closed_summary R) }
{
    for g in 0..8u8 {
        let open = origins(graph, g);
        add_edges(graph, open, g, 1);
    }
}

// Whether two graphs have the same words, and so hold the same.
pub fn same(a: &Graph, b: &Graph) -> bool
    ensures { result ≡ true → SameGraph a.now b.now }
{
    a == b
}

// One word gains the members of another; those that it lacked.
fn join_word(graph: &mut Graph, i: usize, more: u64) -> u64
    requires { i < 544 }
    ensures { JoinsWord graph.old i more graph.new result }
{
    let before = graph[i];
    graph[i] = sets::union(before, more);
    sets::without(more, before)
}

// The graph holds what either held; the answer is whether it has changed.
pub fn join(graph: &mut Graph, from: &Graph) -> bool
    ensures { Joins graph.old from.now graph.new result }
{
    let mut gained: u64 = 0;
    for i in 0..WORDS {
        gained = sets::union(gained, join_word(graph, i, from[i]));
    }
    gained != 0
}
