// Elements of templates that are wrong by a clause of their rule (document 01, verdict 12; document 02, F-6), clause by clause.
#![tactic(auto)]

ghost use Rattle.std.specs.Prelude.{◌≡◌, ◌≤◌, ◌<◌, IfSome};
ghost use Rattle.judging.specs.Inner.Judgement.{broken_if};
ghost use Rattle.patterns.specs.Inner.LowestWrong.{wrong_at};
ghost use Rattle.elements.specs.Inner.Attributes.{AttributePatterns};
ghost use Rattle.elements.specs.Inner.Rules.{SettledBy, SearchesTemplate, SearchesClause, SearchesRule, SearchesRules};
ghost use Rattle.elements.specs.Inner.Search.{CanFail, HasPattern, SearchesElement, SearchesItems};

use commands::Position;
use graphs::Graph;
use pages::{AttributeHere, ItemHere, TEXT, Templates};
use patterns::Wrong;
use schemes::{EMPTY, Scheme};
use verdicts::Breach;
use vocabularies::{Facts, Tables};

// A clause of an element's rule: its place in the rule, from 0, where its formula stands, its facts, and the scheme of these.
#[derive(Clone, Copy)]
struct Clause {
    element: u8,
    place: usize,
    formula: Position,
    facts: Facts,
    scheme: Scheme,
}

// The attributes of an element: their patterns, whether all their gaps have something to take, and the position after them.
#[derive(Clone, Copy)]
struct Attributes {
    set: [u64; 4],
    takes: bool,
    next: Position,
}

// An element that was searched: whether it has a pattern, the lowest wrong element in it, itself one of them, and the position after it.
#[derive(Clone, Copy)]
struct FoundElement {
    yields: bool,
    wrong: Option<Wrong>,
    next: Position,
}

// A list of items that was searched: its patterns, the lowest wrong element in it, and the position after what ends it.
#[derive(Clone, Copy)]
struct FoundItems {
    set: [u64; 4],
    wrong: Option<Wrong>,
    next: Position,
}

// The attributes from here on, of an element of template n. One that no fact is about leaves the patterns as they are, if it has something
// to take.
fn attribute_patterns(
    s: &[u8],
    start: Position,
    facts: Facts,
    scheme: Scheme,
    graph: &Graph,
    n: usize,
) -> Attributes
    requires { n < 32 }
    ensures forward { start.at ≤ result.next.at }
    ensures patterned { AttributePatterns s.now start.at facts scheme graph.now n result }
{
    let about = clauses::attributes_of(facts);
    let mut here = start;
    let mut set = pattern_sets::only(EMPTY);
    let mut takes = true;
    loop {
        match pages::attribute_here(s, here) {
            AttributeHere::Fixed { name, string, next } => {
                here = next;
                if sets::has(about, name) {
                    let own = pattern_sets::only(clauses::attribute_pattern(facts, name, string));
                    let more = schemes::product(scheme, set, own);
                    set = more;
                }
            }
            AttributeHere::Open { name, gap, next } => {
                here = next;
                let values = graphs::attribute_values(graph, n as u8, gap);
                if strings::takes_nothing(values) {
                    takes = false;
                    let none = pattern_sets::empty();
                    set = none;
                } else if sets::has(about, name) {
                    let taken = clauses::value_patterns(facts, name, values);
                    let more = schemes::product(scheme, set, taken);
                    set = more;
                }
            }
            AttributeHere::Done => {
                return Attributes {
                    set,
                    takes,
                    next: here,
                };
            }
        }
    }
}

// Whether the clause can fail for an element whose attributes and contents have these patterns.
fn can_fail(s: &[u8], clause: Clause, outer: [u64; 4], inner: [u64; 4]) -> bool
    ensures { CanFail s.now clause outer inner result }
{
    let patterns = schemes::product(clause.scheme, outer, inner);
    clauses::clause_fails(s, clause.formula, clause.facts, patterns).fails
}

// The element at an offset of template n, if it fails the clause at a place of its rule.
fn wrong_if(fails: bool, n: usize, at: usize, place: usize) -> Option<Wrong>
    ensures { result ≡ wrong_at n at (broken_if fails (Breach.Clause place)) }
{
    let wrong = Wrong {
        template: n,
        at,
        breach: Breach::Clause(place),
    };
    fails.then_some(wrong)
}

// Whether an element has a pattern: its attributes have something to take, and the list inside it has a pattern.
fn has_pattern(takes: bool, inner: [u64; 4]) -> bool
    ensures { HasPattern takes inner result }
{
    if !takes {
        return false;
    }
    !pattern_sets::is_empty(inner)
}

// What the items of template n are searched with: a clause, and what each gap takes.
#[derive(Clone, Copy)]
struct Search<'a> {
    s: &'a [u8],
    clause: Clause,
    n: usize,
    graph: &'a Graph,
    takes: &'a [[u64; 4]; 8],
    ghost there: { n < 32 },
}

impl Search<'_> {
    // The element e here, whose attributes stand at `start`: itself, if it has the clause's name, and those inside it.
    #[cycle(search_element_search_items)]
    fn search_element(&self, here: Position, e: u8, start: Position) -> FoundElement
        ensures forward { start.at ≤ result.next.at }
        ensures searched { SearchesElement self.now.s.now here.at e start self.now.clause self.now.graph.now self.now.takes.now self.now.n result }
    {
        let clause = self.clause;
        if e != clause.element {
            let filled = languages::attributes_take(self.s, start, self.graph, self.n);
            let list = self.search_items(filled.next);
            return FoundElement {
                yields: has_pattern(filled.takes, list.set),
                wrong: list.wrong,
                next: list.next,
            };
        }
        let attributes = attribute_patterns(
            self.s,
            start,
            clause.facts,
            clause.scheme,
            self.graph,
            self.n,
        );
        let list = self.search_items(attributes.next);
        let fails = can_fail(self.s, clause, attributes.set, list.set);
        let own = wrong_if(fails, self.n, here.at, clause.place);
        FoundElement {
            yields: has_pattern(attributes.takes, list.set),
            wrong: patterns::lower(own, list.wrong),
            next: list.next,
        }
    }

    // The items from here on, up to and with what ends them: the lowest wrong element, and the patterns of the list, which are the product of
    // those of the items. After an item without a pattern there is none.
    #[cycle(search_element_search_items)]
    fn search_items(&self, start: Position) -> FoundItems
        ensures forward { start.at ≤ result.next.at }
        ensures searched { SearchesItems self.now.s.now start.at self.now.clause self.now.graph.now self.now.takes.now self.now.n result }
    {
        // Loaded once; through `self` it would be for every text.
        let s = self.s;
        let scheme = self.clause.scheme;
        let mut line = languages::line_of(pattern_sets::only(EMPTY));
        let mut here = start;
        let mut wrong = None;
        loop {
            match pages::item_here(s, here) {
                ItemHere::Text(next) => {
                    here = next;
                    if sets::has(line.contents, TEXT) {
                        let longer = languages::with_content(scheme, line, TEXT);
                        line = longer;
                    }
                }
                ItemHere::Gap(g, next) => {
                    here = next;
                    if sets::has(line.gaps, g) {
                        let longer = languages::with_gap(scheme, line, self.takes, g);
                        line = longer;
                    }
                }
                ItemHere::Element(e, inside) => {
                    let found = self.search_element(here, e, inside);
                    wrong = patterns::lower(wrong, found.wrong);
                    here = found.next;
                    let longer = languages::with_element(scheme, line, e, found.yields);
                    line = longer;
                }
                ItemHere::Blank(next) => here = next,
                ItemHere::End(next) => {
                    let set = line.set;
                    return FoundItems { set, wrong, next };
                }
            }
        }
    }
}

// The items of template n from here on, from the pattern sets of all templates.
fn search_template(
    s: &[u8],
    start: Position,
    clause: Clause,
    n: usize,
    graph: &Graph,
    sets: &[[u64; 4]; 32],
) -> Option<Wrong>
    requires { n < 32 }
    ensures { SearchesTemplate s.now start.at clause graph.now sets.now n result }
{
    let takes = languages::gaps_from(graph, sets, n);
    let search = Search {
        s,
        clause,
        n,
        graph,
        takes: &takes,
    };
    search.search_items(start).wrong
}

// One clause, for the templates of a set, from the sets that are settled by its scheme. Template 0 has no element. The bytes, the graph and
// the templates are no struct: it would be taken apart again here and in `settle_by`, which hands them on to `settle` as they are.
fn search_clause(
    s: &[u8],
    clause: Clause,
    graph: &Graph,
    templates: &Templates,
    chosen: u64,
    sets: &[[u64; 4]; 32],
) -> Option<Wrong>
    requires { SettledBy clause.scheme s.now graph.now templates.now.starts templates.now.count sets.now }
    ensures { SearchesClause s.now clause graph.now templates.now.starts templates.now.count chosen result }
{
    let mut lowest = None;
    for n in 1..32 {
        if templates.count < n {
            return lowest;
        }
        if sets::has(chosen, n as u8) {
            let start = Position::new(templates.starts[n]);
            let found = search_template(s, start, clause, n, graph, sets);
            lowest = patterns::lower(lowest, found);
        }
    }
    lowest
}

// The sets become those settled by a scheme. They are at hand if they were settled by the same one, as they often are for the clauses of a
// rule.
fn settle_by(
    s: &[u8],
    at_hand: Option<Scheme>,
    scheme: Scheme,
    graph: &Graph,
    templates: &Templates,
    sets: &mut [[u64; 4]; 32],
)
    requires { IfSome at_hand (λ last. SettledBy last s.now graph.now templates.now.starts templates.now.count sets.old) }
    ensures { SettledBy scheme s.now graph.now templates.now.starts templates.now.count sets.new }
{
    if let Some(last) = at_hand
        && last == scheme
    {
        return;
    }
    languages::settle(s, scheme, graph, templates, sets);
}

// The clauses of element e's rule, which stand from an offset on, for the templates of a set.
fn search_rule(
    s: &[u8],
    e: u8,
    from: Position,
    graph: &Graph,
    templates: &Templates,
    chosen: u64,
) -> Option<Wrong>
    ensures { SearchesRule s.now e from.at 0 graph.now templates.now.starts templates.now.count chosen result }
{
    let mut lowest = None;
    if chosen == 0 {
        return lowest;
    }
    let mut here = from;
    // Counts the clauses beside the position that moves over them.
    let mut place: usize = 0;
    let mut sets = [[0u64; 4]; 32];
    let mut at_hand = None;
    loop {
        let Some(formula) = here.past(s, 0x04) else {
            return lowest;
        };
        let Ok(next) = vocabularies::read_formula(s, formula, 0) else {
            return lowest;
        };
        let facts = vocabularies::facts_of(s, formula, next);
        let scheme = schemes::facts_scheme(facts);
        settle_by(s, at_hand, scheme, graph, templates, &mut sets);
        at_hand = Some(scheme);
        let clause = Clause {
            element: e,
            place,
            formula,
            facts,
            scheme,
        };
        let found = search_clause(s, clause, graph, templates, chosen, &sets);
        lowest = patterns::lower(lowest, found);
        here = next;
        place += 1;
    }
}

// All clauses of all rules, for the templates that are reached; `standing` has the templates in which each element stands.
pub fn search_rules(
    s: &[u8],
    vocabulary: &Tables,
    standing: &[u64; 64],
    graph: &Graph,
    templates: &Templates,
    reached: u64,
) -> Option<Wrong>
    ensures { SearchesRules s.now vocabulary.now.declared vocabulary.now.rules standing.now graph.now templates.now.starts templates.now.count reached result }
{
    let declared = vocabulary.declared;
    let mut lowest = None;
    for e in 0..64 {
        if sets::has(declared, e as u8) {
            let chosen = sets::common(reached, standing[e]);
            let from = vocabulary.rules[e].clauses;
            let found = search_rule(s, e as u8, from, graph, templates, chosen);
            lowest = patterns::lower(lowest, found);
        }
    }
    lowest
}
