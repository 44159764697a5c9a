// The languages of summary graphs (document 01, "Covering, and the language of a show"): for each template the set of patterns that
// its pages have.
#![tactic(auto)]

ghost use Rattle.std.specs.Prelude.{◌≡◌, List, ◌≤◌, ◌<◌, length};
ghost use Rattle.pages.specs.Items.{open_gap, Items};
ghost use Rattle.summaries.specs.Summaries.{Summary};
ghost use Rattle.patterns.specs.Inner.Morphisms.{Morphism};
ghost use Rattle.patterns.specs.Inner.Given.{Bounded};
ghost use Rattle.patterns.specs.Inner.Rounds.{Sets, string_reaches, value_takes};
ghost use Rattle.graphs.specs.Inner.Graphs.{Keeps};
ghost use Rattle.languages.specs.Inner.Tables.{SetsAre, GapSetsAre};
ghost use Rattle.languages.specs.Inner.Promises.{UnionOf, AttributesTake, LineOf, LineWithContent, LineWithGap, LineWithElement, ElementPatterns, ListPatterns, IsRound, Targets, TargetsTable, KeepsSet, Rounds, WithinSet, Grows, Settles};

use commands::Position;
use graphs::Graph;
use pages::{AttributeHere, ItemHere, TEXT, Templates};
use schemes::{EMPTY, Scheme};

// The patterns of the templates of a set, from the sets of all templates. `reach::union_of` joins words, from a first one on: a function for
// both would take the join and what it promises, and be no plainer.
fn union_of(templates: u64, sets: &[[u64; 4]; 32]) -> [u64; 4]
    ensures { UnionOf templates sets.now result }
{
    let mut set = pattern_sets::empty();
    let mut next = sets::next_member(templates, 0);
    while let Some(m) = next {
        let Some(row) = sets.get(m as usize) else {
            return set;
        };
        let more = pattern_sets::union(set, *row);
        set = more;
        next = sets::next_member(templates, m + 1);
    }
    set
}

// What each gap of template n takes: the patterns of all templates to which it has edges, from their sets.
pub fn gaps_from(graph: &Graph, sets: &[[u64; 4]; 32], n: usize) -> [[u64; 4]; 8]
    requires { n < 32 }
    ensures { (φs : List Items) (G : Summary) (M : Morphism) (X : Sets) → length φs < 32 → Bounded φs G → Keeps graph.now G → SetsAre φs M X sets.now → GapSetsAre φs G M X n result }
{
    let mut takes = [[0u64; 4]; 8];
    for g in 0..8 {
        takes[g] = union_of(graphs::edges(graph, n as u8, g as u8), sets);
    }
    takes
}

// Whether some string reaches template n's attribute gap h.
pub fn string_reaches(graph: &Graph, n: usize, h: u8) -> bool
    requires { n < 32 }
    ensures { (G : Summary) → Keeps graph.now G → h < 8 → result ≡ string_reaches G n (open_gap h) }
{
    let values = graphs::strings_at(graph, n as u8, h);
    !strings::is_empty(values)
}

// Whether template n's attribute gap h has something to take, a string or absence; `string_reaches` leaves absence out.
fn takes_something(graph: &Graph, n: usize, h: u8) -> bool
    requires { n < 32 }
    ensures { (G : Summary) → Keeps graph.now G → h < 8 → result ≡ value_takes G n (open_gap h) }
{
    let values = graphs::attribute_values(graph, n as u8, h);
    !strings::takes_nothing(values)
}

// Whether all attribute gaps of attributes have something to take, and the position after the attributes.
#[derive(Clone, Copy)]
pub struct Filled {
    pub takes: bool,
    pub next: Position,
}

// The attributes straight after `23 e`, of an element of template n.
pub fn attributes_take(s: &[u8], start: Position, graph: &Graph, n: usize) -> Filled
    requires { n < 32 }
    ensures forward { start.at ≤ result.next.at }
    ensures filled { AttributesTake s.now start.at graph.now n result }
{
    let mut here = start;
    let mut takes = true;
    loop {
        match pages::attribute_here(s, here) {
            AttributeHere::Fixed { next, .. } => here = next,
            AttributeHere::Open { gap, next, .. } => {
                here = next;
                if !takes_something(graph, n, gap) {
                    takes = false;
                }
            }
            AttributeHere::Done => return Filled { takes, next: here },
        }
    }
}

// The patterns of a list of items so far, and the contents and the gaps that may change them: the others were found not to.
#[derive(Clone, Copy)]
pub struct Line {
    pub set: [u64; 4],
    pub contents: u64,
    pub gaps: u64,
}

const ALL: u64 = 0xFFFF_FFFF_FFFF_FFFF;

// A list that has these patterns, which anything may change.
pub fn line_of(set: [u64; 4]) -> Line
    ensures { LineOf set result }
{
    Line {
        set,
        contents: ALL,
        gaps: ALL,
    }
}

// A list with one content more.
pub fn with_content(r: Scheme, line: Line, c: u8) -> Line
    requires { c < 64 }
    ensures { LineWithContent r line c result }
{
    let set = line.set;
    let more = schemes::followed(r, set, schemes::single(r, c));
    if pattern_sets::same(more, set) {
        return Line {
            set,
            contents: sets::without(line.contents, sets::with(0, c)),
            gaps: line.gaps,
        };
    }
    line_of(more)
}

// A list with what gap g takes, one more.
pub fn with_gap(r: Scheme, line: Line, takes: &[[u64; 4]; 8], g: u8) -> Line
    requires { g < 8 }
    ensures { LineWithGap r takes.now line g result }
{
    let set = line.set;
    let joined = schemes::product(r, set, takes[g as usize]);
    if pattern_sets::same(joined, set) {
        return Line {
            set,
            contents: line.contents,
            gaps: sets::without(line.gaps, sets::with(0, g)),
        };
    }
    line_of(joined)
}

// A list with an element e more, which has a pattern or none: `yields` is a fact about the element, which callers have worked out.
pub fn with_element(r: Scheme, line: Line, e: u8, yields: bool) -> Line
    requires { e < 64 }
    ensures { LineWithElement r line e yields result }
{
    if !yields {
        return line_of(pattern_sets::empty());
    }
    if !sets::has(line.contents, e) {
        return line;
    }
    with_content(r, line, e)
}

// The set of an item, or of a list of items, and the position after it. Where there is no pattern, the position is of no use, and any.
#[derive(Clone, Copy)]
pub struct Patterned {
    pub set: [u64; 4],
    pub next: Position,
}

// What the sets of items of template n are worked out with: a scheme. What each gap takes is lent beside the struct; with a reference to it
// in a field the compiler copies the table once more for each template.
#[derive(Clone, Copy)]
struct Walk<'a> {
    s: &'a [u8],
    r: Scheme,
    graph: &'a Graph,
    n: usize,
    ghost there: { n < 32 },
}

impl Walk<'_> {
    // The set of the element e whose attributes stand here: that of its one content, if its attributes have something to take and the list
    // inside it has a pattern.
    #[cycle(element_patterns_list_patterns)]
    fn element_patterns(&self, takes: &[[u64; 4]; 8], here: Position, e: u8) -> Patterned
        requires { e < 64 }
        ensures forward { here.at ≤ result.next.at }
        ensures patterned { ElementPatterns self.now.s.now here.at e self.now.r self.now.graph.now self.now.n takes.now result }
    {
        let filled = attributes_take(self.s, here, self.graph, self.n);
        let after = filled.next;
        if !filled.takes {
            return Patterned {
                set: pattern_sets::empty(),
                next: after,
            };
        }
        let inside = self.list_patterns(takes, after);
        let set = inside.set;
        if pattern_sets::is_empty(set) {
            return inside;
        }
        Patterned {
            set: pattern_sets::only(schemes::single(self.r, e)),
            next: inside.next,
        }
    }

    // The set of the items from here on, up to what ends them: the product of the sets of the items, from what its gaps take. As soon as an
    // item has no pattern, the list has none.
    #[cycle(element_patterns_list_patterns)]
    fn list_patterns(&self, takes: &[[u64; 4]; 8], start: Position) -> Patterned
        ensures forward { start.at ≤ result.next.at }
        ensures patterned { ListPatterns self.now.s.now start.at self.now.r self.now.graph.now self.now.n takes.now result }
    {
        // Loaded once; through `self` it would be for every text.
        let s = self.s;
        let mut line = line_of(pattern_sets::only(EMPTY));
        let mut here = start;
        loop {
            match pages::item_here(s, here) {
                ItemHere::Text(next) => {
                    here = next;
                    if sets::has(line.contents, TEXT) {
                        let longer = with_content(self.r, line, TEXT);
                        line = longer;
                    }
                }
                ItemHere::Gap(g, next) => {
                    here = next;
                    if sets::has(line.gaps, g) {
                        let longer = with_gap(self.r, line, takes, g);
                        let set = longer.set;
                        if pattern_sets::is_empty(set) {
                            return Patterned { set, next };
                        }
                        line = longer;
                    }
                }
                ItemHere::Element(e, inside) => {
                    let element = self.element_patterns(takes, inside, e);
                    let set = element.set;
                    if pattern_sets::is_empty(set) {
                        return element;
                    }
                    here = element.next;
                    if sets::has(line.contents, e) {
                        let longer = with_content(self.r, line, e);
                        line = longer;
                    }
                }
                ItemHere::Blank(next) => here = next,
                ItemHere::End(next) => {
                    let set = line.set;
                    return Patterned { set, next };
                }
            }
        }
    }
}

// The templates to which template n has edges.
fn targets(graph: &Graph, n: usize) -> u64
    requires { n < 32 }
    ensures { Targets graph.now n result }
{
    let mut all = 0;
    for g in 0..8 {
        all = sets::union(all, graphs::edges(graph, n as u8, g));
    }
    all
}

// For every template those to which it has edges.
fn all_targets(graph: &Graph, count: usize) -> [u64; 32]
    ensures { TargetsTable graph.now count result }
{
    let mut table = [0u64; 32];
    for n in 0..32 {
        if count < n {
            return table;
        }
        table[n] = targets(graph, n);
    }
    table
}

// Whether a template that takes from these keeps its set in a round: there was a round before, which changed the set of none of them.
fn keeps_set(targets: u64, changed: Option<u64>) -> bool
    ensures { KeepsSet targets changed result }
{
    let Some(others) = changed else {
        return false;
    };
    sets::common(targets, others) == 0
}

// What rounds are made with: a scheme, and the templates and edges of a summary graph.
#[derive(Clone, Copy)]
struct Settler<'a> {
    s: &'a [u8],
    r: Scheme,
    graph: &'a Graph,
    templates: &'a Templates,
}

impl Settler<'_> {
    // The set of template n, from the sets of the round before. Template 0 is empty.
    fn template_patterns(&self, sets: &[[u64; 4]; 32], n: usize) -> [u64; 4]
        requires { n < 32 }
        ensures { IsRound self.now.r self.now.s.now self.now.graph.now self.now.templates.now.starts sets.now n result }
    {
        if n == 0 {
            return pattern_sets::only(EMPTY);
        }
        let takes = gaps_from(self.graph, sets, n);
        let walk = Walk {
            s: self.s,
            r: self.r,
            graph: self.graph,
            n,
        };
        walk.list_patterns(&takes, Position::new(self.templates.starts[n]))
            .set
    }

    // A round: the sets of all templates, from those of the round before, of which these have changed in it, if there was one.
    fn round(
        &self,
        targets: &[u64; 32],
        sets: &[[u64; 4]; 32],
        changed: Option<u64>,
    ) -> [[u64; 4]; 32]
        ensures { Rounds self.now.r self.now.s.now self.now.graph.now self.now.templates.now.starts targets.now sets.now self.now.templates.now.count changed result }
    {
        let mut next = [[0u64; 4]; 32];
        for n in 0..32 {
            if self.templates.count < n {
                return next;
            }
            next[n] = if keeps_set(targets[n], changed) {
                sets[n]
            } else {
                self.template_patterns(sets, n)
            };
        }
        next
    }
}

// Whether every pattern of the one set is one of the other.
fn is_within(a: [u64; 4], b: [u64; 4]) -> bool
    ensures { WithinSet a b result }
{
    pattern_sets::is_empty(pattern_sets::difference(a, b))
}

// The templates whose sets have more patterns after a round; none, if a set lacks one that it had.
fn grown(before: &[[u64; 4]; 32], after: &[[u64; 4]; 32], count: usize) -> u64
    ensures { Grows count before.now after.now result }
{
    let mut more: u64 = 0;
    for n in 0..32 {
        if count < n {
            return more;
        }
        if !is_within(before[n], after[n]) {
            return 0;
        }
        if !is_within(after[n], before[n]) {
            more = sets::with(more, n as u8);
        }
    }
    more
}

// The sets of all templates: all empty at first, then round after round, until a round changes nothing. Sets of rounds grow, so there
// are at most as many rounds as patterns that the sets can hold, and one more. Answers how many were made, the last of which changed
// nothing; what the lent sets held before does not matter.
pub fn settle(
    s: &[u8],
    r: Scheme,
    graph: &Graph,
    templates: &Templates,
    sets: &mut [[u64; 4]; 32],
) -> usize
    ensures { Settles r s.now graph.now templates.now.starts templates.now.count result sets.new }
{
    let settler = Settler {
        s,
        r,
        graph,
        templates,
    };
    let targets = all_targets(graph, templates.count);
    *sets = [[0u64; 4]; 32];
    let mut changed = None;
    let mut made = 0;
    loop {
        let next = settler.round(&targets, sets, changed);
        let more = grown(sets, &next, templates.count);
        *sets = next;
        made += 1;
        if more == 0 {
            return made;
        }
        changed = Some(more);
    }
}
