// The entries of all points, kept in a work area: which words are a point's stands here alone.
#![tactic(auto)]

ghost use Rattle.std.specs.Prelude.{◌≡◌, ℕ, ◌+◌, ◌*◌, ◌^◌, ◌≤◌, ◌<◌, true, false, length, get_or, take, drop};
ghost use Rattle.summaries.specs.Proposal.{Claim};
ghost use Rattle.sets.specs.Sets.{member};
ghost use Rattle.graphs.specs.Inner.Promises.{JoinsWord};
ghost use Rattle.states.specs.Inner.States.{point_words, graph_place, strings_place, graph_words, entries_in};
ghost use Rattle.states.specs.Inner.Promises.{HasPoint, GraphTaken, ValuesTaken, LiesWithin, GraphJoined, ValuesJoined, SameEntry};

use graphs::Graph;
use strings::Values;

// The words of a graph; of a string variable; and where among a point's words those of its string variables begin.
const GRAPH_WORDS: usize = 544;

const STRING_WORDS: usize = 2;

const STRINGS: usize = 2176;

pub const POINT_WORDS: usize = 2184;

// Where the graph of a template variable begins.
fn graph_place(p: usize, x: usize) -> usize
    requires { (p * point_words < 2 ^ 63) × (x < 4) }
    ensures { result ≡ graph_place p x }
{
    p * POINT_WORDS + x * GRAPH_WORDS
}

// Where the words of a string variable begin.
fn strings_place(p: usize, y: usize) -> usize
    requires { (p * point_words < 2 ^ 63) × (y < 4) }
    ensures { result ≡ strings_place p y }
{
    p * POINT_WORDS + STRINGS + y * STRING_WORDS
}

// The entry of a template variable at a point.
pub fn graph_at(work: &[u64], p: usize, x: usize) -> Graph
    requires { HasPoint work.now p × (x < 4) }
    ensures { GraphTaken work.now p x result }
{
    let first = graph_place(p, x);
    let mut graph = graphs::none();
    graph.copy_from_slice(&work[first..first + GRAPH_WORDS]);
    graph
}

// Whether all words of a template variable's entry at a point are zero: then nothing is held of it.
pub fn is_blank(work: &[u64], p: usize, x: usize) -> bool
    requires { HasPoint work.now p × (x < 4) }
    ensures { result ≡ true → (points : ℕ) (c : Claim) → (entries_in points work.now p).template x c ≡ false }
{
    let first = graph_place(p, x);
    let mut all: u64 = 0;
    for &word in &work[first..first + GRAPH_WORDS] {
        all = sets::union(all, word);
    }
    all == 0
}

// The entry of a string variable at a point.
pub fn values_at(work: &[u64], p: usize, y: usize) -> Values
    requires { HasPoint work.now p × (y < 4) }
    ensures { ValuesTaken work.now p y result }
{
    let first = strings_place(p, y);
    if sets::has(work[first + 1], 0) {
        return Values::Any;
    }
    Values::Named(strings::of_number(work[first]))
}

// Whether the words from two places on are the same. Their differences are gathered without an early exit: many can be compared at once, which
// takes less time than `==` of slices.
fn same_words(work: &[u64], a: usize, b: usize, count: usize) -> bool
    requires { (a + count ≤ length work.now) × (b + count ≤ length work.now) }
    ensures { result ≡ true → take count (drop a work.now) ≡ take count (drop b work.now) }
{
    let mut differences: u64 = 0;
    for i in 0..count {
        differences = differences | (work[a + i] ^ work[b + i]);
    }
    differences == 0
}

// Whether the words of a variable's entry are the same at two points: then the same is held there. Variables 4 to 7 are the string variables.
pub fn same_entry(work: &[u64], p: usize, q: usize, v: usize) -> bool
    requires { HasPoint work.now p × HasPoint work.now q × (v < 8) }
    ensures { result ≡ true → (points : ℕ) → p < points → q < points → SameEntry points work.now p q v }
{
    if v < 4 {
        return same_words(work, graph_place(p, v), graph_place(q, v), GRAPH_WORDS);
    }
    same_words(
        work,
        strings_place(p, v - 4),
        strings_place(q, v - 4),
        STRING_WORDS,
    )
}

// One word gains the members of another; those that it lacked. A slice has its length in its contract, a graph in its type, so this stands
// in both crates.
fn join_word(work: &mut [u64], i: usize, more: u64) -> u64
    requires { i < length work.old }
    ensures { JoinsWord work.old i more work.new result × (get_or work.old i 0 < 2 ^ 64) }
{
    let before = work[i];
    work[i] = sets::union(before, more);
    sets::without(more, before)
}

// A template variable at a point also holds what a graph does; whether its words have changed.
pub fn join_graph(work: &mut [u64], p: usize, x: usize, from: &Graph) -> bool
    requires { HasPoint work.old p × (x < 4) }
    ensures { GraphJoined work.old p x from.now work.new result }
{
    let first = graph_place(p, x);
    let mut gained: u64 = 0;
    for i in 0..GRAPH_WORDS {
        gained = sets::union(gained, join_word(work, first + i, from[i]));
    }
    gained != 0
}

// Whether the words of a graph lie within those of another: then joining it to that one changes nothing. What they lack is gathered
// without an early exit: many words can be compared at once.
fn lies_within(work: &[u64], from: usize, first: usize) -> bool
    requires { (from + 544 ≤ length work.now) × (first + 544 ≤ length work.now) }
    ensures { result ≡ true → LiesWithin work.now from first }
{
    let mut lacking: u64 = 0;
    for i in 0..GRAPH_WORDS {
        lacking = sets::union(lacking, sets::without(work[from + i], work[first + i]));
    }
    lacking == 0
}

// A template variable at a point also holds what another does, perhaps at another point; whether its words have changed.
pub fn join_entry(work: &mut [u64], p: usize, x: usize, q: usize, z: usize) -> bool
    requires { HasPoint work.old p × (x < 4) × HasPoint work.old q × (z < 4) }
    ensures { GraphJoined work.old p x (graph_words work.old q z) work.new result }
{
    let first = graph_place(p, x);
    let from = graph_place(q, z);
    if lies_within(work, from, first) {
        return false;
    }
    let mut gained: u64 = 0;
    for i in 0..GRAPH_WORDS {
        let more = work[from + i];
        gained = sets::union(gained, join_word(work, first + i, more));
    }
    gained != 0
}

// A string variable at a point can also take these values; whether its words have changed.
pub fn join_values(work: &mut [u64], p: usize, y: usize, values: Values) -> bool
    requires { HasPoint work.old p × (y < 4) }
    ensures { ValuesJoined work.old p y values work.new result }
{
    let first = strings_place(p, y);
    match values {
        Values::Any => join_word(work, first + 1, 1) != 0,
        Values::Named(set) => join_word(work, first, set.word) != 0,
    }
}
