// Which templates are reached in a show, which contents can stand in the pages of each, and the elements that are wrong by the
// attributes that they can carry or by their contents.
#![tactic(auto)]

ghost use Rattle.std.specs.Prelude.{◌≡◌, ℕ, ◌≤◌, ◌<◌};
ghost use Rattle.sets.specs.Sets.{member};
ghost use Rattle.summaries.specs.Summaries.{Summary};
ghost use Rattle.graphs.specs.Inner.Graphs.{Keeps};
ghost use Rattle.reach.specs.Inner.Closures.{United, Closure};
ghost use Rattle.reach.specs.Inner.Promises.{TellsYielding, edges_by, EdgeTable, TellsReached, LedContents, TellsContents};
ghost use Rattle.reach.specs.Inner.Walking.{TellsCarriable, TellsOutside, WalksElement, WalksItems, TellsBrings, TellsWrongIn, TellsPlainlyWrong};

use commands::Position;
use graphs::Graph;
use pages::{AttributeHere, ItemHere, TEXT, Templates};
use patterns::Wrong;
use verdicts::Breach;
use vocabularies::Rule;

// The templates whose set of classes is not empty.
pub fn yielding(classes: [[u64; 4]; 32], count: usize) -> u64
    ensures { TellsYielding classes count result }
{
    let mut yields: u64 = 0;
    for n in 0..32 {
        if count < n {
            return yields;
        }
        yields = sets::with_if(yields, n as u8, !pattern_sets::is_empty(classes[n]));
    }
    yields
}

// A set, with the sets of the table that another set names.
fn union_of(first: u64, set: u64, table: &[u64]) -> u64
    ensures { United first set table.now result }
{
    let mut all = first;
    let mut next = sets::next_member(set, 0);
    while let Some(i) = next {
        let Some(entry) = table.get(i as usize) else {
            return all;
        };
        all = sets::union(all, *entry);
        next = sets::next_member(set, i + 1);
    }
    all
}

// The least set that has the members of a set and is closed under a table of edges. A round follows only what the last one added.
fn closure(set: u64, table: &[u64]) -> u64
    ensures { Closure set table.now result }
{
    let mut all = set;
    let mut fresh = set;
    loop {
        let more = union_of(all, fresh, table);
        if more == all {
            return all;
        }
        fresh = sets::without(more, all);
        all = more;
    }
}

// The templates to which the gaps of a set lead from template n.
fn edges_of(graph: &Graph, n: usize, gaps: u64) -> u64
    requires { n < 32 }
    ensures { (G : Summary) → Keeps graph.now G → (m : ℕ) → member result m ≡ edges_by G n gaps m }
{
    let mut all: u64 = 0;
    for g in 0..8 {
        if sets::has(gaps, g) {
            all = sets::union(all, graphs::edges(graph, n as u8, g));
        }
    }
    all
}

// The edges from each template, by the gaps that are given, to the templates of a set. The two public functions that call this keep these
// parameters: a struct of them would be built in each for this one call.
fn edge_table(graph: &Graph, gaps: &[u64; 32], count: usize, yields: u64) -> [u64; 32]
    ensures { (G : Summary) → Keeps graph.now G → EdgeTable G gaps.now count yields result }
{
    let mut table = [0u64; 32];
    for n in 0..32 {
        if count < n {
            return table;
        }
        table[n] = sets::common(edges_of(graph, n, gaps[n]), yields);
    }
    table
}

// The templates that are reached from a root, through templates of which pages come.
pub fn reached(graph: &Graph, gaps: &[u64; 32], count: usize, yields: u64) -> u64
    ensures { TellsReached graph.now gaps.now count yields result }
{
    let edges = edge_table(graph, gaps, count, yields);
    closure(sets::common(graphs::roots(graph), yields), &edges)
}

// The names of the attributes that can be carried, and the position after all attributes.
#[derive(Clone, Copy)]
pub struct Carriable {
    pub names: u64,
    pub next: Position,
}

// The attributes straight after `23 e`, of an element of template n: those that some string reaches can be carried, the others are
// absent in every page.
fn carriable_names(s: &[u8], start: Position, graph: &Graph, n: usize) -> Carriable
    requires { n < 32 }
    ensures forward { start.at ≤ result.next.at }
    ensures carriable { TellsCarriable s.now start.at graph.now n result }
{
    let mut here = start;
    let mut names: u64 = 0;
    loop {
        match pages::attribute_here(s, here) {
            AttributeHere::Fixed { name, next, .. } => {
                here = next;
                names = sets::with(names, name);
            }
            AttributeHere::Open { name, gap, next } => {
                here = next;
                names = sets::with_if(names, name, languages::string_reaches(graph, n, gap));
            }
            AttributeHere::Done => return Carriable { names, next: here },
        }
    }
}

// An element of a template that was walked over: the names of the attributes that it can carry, the contents that it can get, the position
// after it, and the lowest element inside it that is plainly wrong.
#[derive(Clone, Copy)]
pub struct WalkedElement {
    pub names: u64,
    pub gets: u64,
    pub next: Position,
    pub wrong: Option<Wrong>,
}

// A list of items that was walked over: the contents and the gaps among the outer ones, the position after it, and the lowest element in it
// that is plainly wrong.
#[derive(Clone, Copy)]
pub struct WalkedItems {
    pub inside: u64,
    pub gaps: u64,
    pub next: Position,
    pub wrong: Option<Wrong>,
}

// The element at an offset of template n, if it can carry an attribute that is not allowed, or else get a content that is not allowed.
fn outside_at(
    n: usize,
    at: usize,
    names: u64,
    attributes: u64,
    inside: u64,
    contents: u64,
) -> Option<Wrong>
    ensures { TellsOutside n at names attributes inside contents result }
{
    if !sets::is_within(names, attributes) {
        return Some(Wrong {
            template: n,
            at,
            breach: Breach::Attribute,
        });
    }
    if !sets::is_within(inside, contents) {
        return Some(Wrong {
            template: n,
            at,
            breach: Breach::Content,
        });
    }
    None
}

// What the items of template n are walked over with: the rules of the vocabulary, and the contents that each gap can bring.
#[derive(Clone, Copy)]
struct Walk<'a> {
    s: &'a [u8],
    rules: &'a [Rule; 64],
    graph: &'a Graph,
    brings: &'a [u64; 8],
    n: usize,
    ghost there: { n < 32 },
}

impl Walk<'_> {
    // The element whose attributes stand at `start`.
    #[cycle(walk_element_walk_items)]
    fn walk_element(&self, start: Position) -> WalkedElement
        ensures forward { start.at ≤ result.next.at }
        ensures walked { WalksElement self.now.s.now self.now.rules.now self.now.graph.now self.now.brings.now self.now.n start.at result }
    {
        let carriable = carriable_names(self.s, start, self.graph, self.n);
        let list = self.walk_items(carriable.next);
        let brings = self.brings;
        WalkedElement {
            names: carriable.names,
            gets: union_of(list.inside, list.gaps, brings),
            next: list.next,
            wrong: list.wrong,
        }
    }

    // The items from here on, up to and with what ends them.
    #[cycle(walk_element_walk_items)]
    fn walk_items(&self, start: Position) -> WalkedItems
        ensures forward { start.at ≤ result.next.at }
        ensures walked { WalksItems self.now.s.now self.now.rules.now self.now.graph.now self.now.brings.now self.now.n start.at result }
    {
        let mut here = start;
        let mut inside: u64 = 0;
        let mut gaps: u64 = 0;
        let mut wrong = None;
        loop {
            match pages::item_here(self.s, here) {
                ItemHere::Text(next) => {
                    inside = sets::with(inside, TEXT);
                    here = next;
                }
                ItemHere::Gap(g, next) => {
                    gaps = sets::with(gaps, g);
                    here = next;
                }
                ItemHere::Element(e, first) => {
                    inside = sets::with(inside, e);
                    let element = self.walk_element(first);
                    let rule = self.rules[e as usize];
                    let own = outside_at(
                        self.n,
                        here.at,
                        element.names,
                        rule.attributes,
                        element.gets,
                        rule.contents,
                    );
                    let lowest = patterns::lower(own, element.wrong);
                    wrong = patterns::lower(wrong, lowest);
                    here = element.next;
                }
                ItemHere::Blank(next) => here = next,
                ItemHere::End(next) => {
                    return WalkedItems {
                        inside,
                        gaps,
                        next,
                        wrong,
                    };
                }
            }
        }
    }
}

// The contents among the outer items of the templates that template n leads to, itself one of them, if pages come of it.
fn contents_at(n: u8, targets: &[u64], contents: &[u64], yields: u64) -> u64
    requires { n < 64 }
    ensures { LedContents n targets.now contents.now yields result }
{
    let start = sets::with_if(0, n, sets::has(yields, n));
    union_of(0, closure(start, targets), contents)
}

// The contents that can stand in the pages of each template, from the outlines. Gaps inside elements bring none.
pub fn contents_of(
    graph: &Graph,
    contents: &[u64; 32],
    gaps: &[u64; 32],
    count: usize,
    yields: u64,
) -> [u64; 32]
    ensures { TellsContents graph.now contents.now gaps.now count yields result }
{
    let targets = edge_table(graph, gaps, count, yields);
    let mut table = [0u64; 32];
    for n in 0..32 {
        if count < n {
            return table;
        }
        table[n] = contents_at(n as u8, &targets, contents, yields);
    }
    table
}

// The contents that each gap of template n can bring.
fn brings_of(graph: &Graph, n: usize, within: &[u64; 32]) -> [u64; 8]
    requires { n < 32 }
    ensures { TellsBrings graph.now n within.now result }
{
    let mut brings = [0u64; 8];
    for g in 0..8 {
        brings[g] = union_of(0, graphs::edges(graph, n as u8, g as u8), within);
    }
    brings
}

// The lowest element that is plainly wrong in template n, whose items stand at an offset.
fn wrong_in(
    s: &[u8],
    rules: &[Rule; 64],
    at: usize,
    graph: &Graph,
    n: usize,
    within: &[u64; 32],
) -> Option<Wrong>
    requires { n < 32 }
    ensures { TellsWrongIn s.now rules.now at graph.now n within.now result }
{
    let brings = brings_of(graph, n, within);
    let walk = Walk {
        s,
        rules,
        graph,
        brings: &brings,
        n,
    };
    walk.walk_items(Position::new(at)).wrong
}

// The lowest element of the templates of a set that is wrong by the attributes that it can carry or by its contents. `within` has the
// contents that can stand in the pages of each template.
pub fn plainly_wrong(
    s: &[u8],
    rules: &[Rule; 64],
    templates: &Templates,
    graph: &Graph,
    within: &[u64; 32],
    reached: u64,
) -> Option<Wrong>
    ensures { TellsPlainlyWrong s.now rules.now templates.now.starts templates.now.count graph.now within.now reached result }
{
    let mut lowest = None;
    for n in 1..32 {
        if templates.count < n {
            return lowest;
        }
        if sets::has(reached, n as u8) {
            let at = templates.starts[n];
            let found = wrong_in(s, rules, at, graph, n, within);
            lowest = patterns::lower(lowest, found);
        }
    }
    lowest
}
