// The shows of a job (document 01, "Verdicts", 11 and 12; document 02, F-6): what a point shows, and what is wrong in the pages of its
// language.
#![tactic(auto)]

ghost use Rattle.std.specs.Prelude.{◌≡◌, ◌<◌};
ghost use Rattle.shows.specs.Inner.Promises.{ShowsAt, HoldsEntry, HoldsSource, HoldsShown, TabledBy, DecidesShow, is_other, LowestRoot, WrongElements};

use commands::Position;
use graphs::Graph;
use pages::{MOST_TEMPLATES, Templates};
use patterns::Wrong;
use programs::{Act, Statement};
use schemes::{EMPTY, OTHER};
use vocabularies::Tables;

// What the page of a show is made from: the value of a template variable; or a template, the frame, with that value in place of its gap
// (document 02, F-3).
#[derive(Clone, Copy)]
pub enum Source {
    Variable(u8),
    Framed { x: u8, frame: u8, gap: u8 },
}

// What is wrong in a show: a root template with a page that is not exactly the root element (11); or an element that is wrong in some
// page (12, 14 or 15).
#[derive(Clone, Copy)]
pub enum WrongShow {
    NotRoot(usize),
    Element(Wrong),
}

// What is worked out of the templates of a job: the gaps of each, at any depth; the contents and the gaps among its outer items; and for
// each element the templates in which it stands. The tables stay apart: what goes by them is lent one or two.
#[derive(Clone, Copy)]
pub struct TemplateTables {
    pub gaps: [u64; 32],
    pub contents: [u64; 32],
    pub outer: [u64; 32],
    pub standing: [u64; 64],
}

// What the statement that stands at an offset shows a page of; none where it shows nothing.
pub fn showing_at(s: &[u8], place: usize) -> Option<Source>
    ensures { ShowsAt s.now place result }
{
    let statement = programs::statement_at(s, Position::new(place));
    let Statement::Step {
        act,
        first: _,
        second: _,
    } = statement
    else {
        return None;
    };
    match act {
        Act::Show(x) => Some(Source::Variable(x)),
        Act::ShowFramed(x, frame, gap) => Some(Source::Framed { x, frame, gap }),
        _ => None,
    }
}

// The graph, which is lent empty, then holds the entry of a template variable at the point.
fn load_entry(s: &[u8], heads: &[usize; 256], p: usize, x: u8, graph: &mut Graph)
    ensures { HoldsEntry s.now heads.now p x graph.old graph.new }
{
    entries::load(s, covering::template_head(heads, p, x as usize), graph);
}

// The graph, which is lent empty, then holds the frame with the entry of a template variable in place of its gap.
fn load_framed(
    s: &[u8],
    heads: &[usize; 256],
    gaps: &[u64; 32],
    p: usize,
    x: u8,
    frame: u8,
    gap: u8,
    graph: &mut Graph,
)
    ensures { HoldsSource s.now heads.now gaps.now p (Source.Framed x frame gap) graph.old graph.new }
{
    entries::add_template(graph, frame, gaps[(frame % 32) as usize]);
    let mut value = graphs::none();
    load_entry(s, heads, p, x, &mut value);
    entries::plug(graph, gap, &mut value);
}

// The graph, which is lent empty, then holds what the page is made from.
fn load_source(
    s: &[u8],
    heads: &[usize; 256],
    gaps: &[u64; 32],
    p: usize,
    source: Source,
    graph: &mut Graph,
)
    ensures { HoldsSource s.now heads.now gaps.now p source graph.old graph.new }
{
    match source {
        Source::Variable(x) => load_entry(s, heads, p, x, graph),
        Source::Framed { x, frame, gap } => load_framed(s, heads, gaps, p, x, frame, gap, graph),
    }
}

// The graph, which is lent empty, then holds what a show of a page at the point shows: what it is made from, closed.
pub fn shown_graph(
    s: &[u8],
    heads: &[usize; 256],
    gaps: &[u64; 32],
    p: usize,
    source: Source,
    graph: &mut Graph,
)
    ensures { HoldsShown s.now heads.now gaps.now p source graph.old graph.new }
{
    load_source(s, heads, gaps, p, source, graph);
    graphs::close(graph);
}

// What is worked out of the templates, whose gaps are given, once for all shows.
pub fn tables_of(s: &[u8], gaps: [u64; 32], templates: &Templates) -> TemplateTables
    ensures { TabledBy s.now gaps templates.now.starts templates.now.count result }
{
    let mut standing = [0u64; 64];
    let outlines = occurrences::of_templates(s, templates, &mut standing);
    let contents = outlines.contents;
    let outer = outlines.gaps;
    TemplateTables {
        gaps,
        contents,
        outer,
        standing,
    }
}

// Whether a template with pages of these classes is a root, and some page of it is not the root element alone.
fn is_other(roots: u64, classes: [u64; 4], t: usize) -> bool
    requires { t < 32 }
    ensures { result ≡ is_other roots classes t }
{
    sets::has(roots, t as u8)
        && (pattern_sets::has(classes, EMPTY) || pattern_sets::has(classes, OTHER))
}

// 11: the lowest such template.
fn lowest_root(roots: u64, classes: [[u64; 4]; 32], count: usize) -> Option<usize>
    requires { count < 32 }
    ensures { LowestRoot roots classes count result }
{
    for t in 0..count + 1 {
        if is_other(roots, classes[t], t) {
            return Some(t);
        }
    }
    None
}

// 12, 14 or 15: the lowest wrong element. Its attributes and contents are told before its clauses.
fn wrong_elements(
    s: &[u8],
    vocabulary: &Tables,
    tables: &TemplateTables,
    templates: &Templates,
    graph: &Graph,
    classes: [[u64; 4]; 32],
) -> Option<Wrong>
    ensures { WrongElements s.now vocabulary.now tables.now templates.now.count templates.now.starts graph.now classes result }
{
    let count = templates.count;
    let yields = reach::yielding(classes, count);
    let reached = reach::reached(graph, &tables.gaps, count, yields);
    let within = reach::contents_of(graph, &tables.contents, &tables.outer, count, yields);
    let plain = reach::plainly_wrong(s, &vocabulary.rules, templates, graph, &within, reached);
    let by_clause = elements::search_rules(
        s,
        vocabulary,
        &tables.standing,
        graph,
        templates,
        reached,
    );
    patterns::lower(plain, by_clause)
}

// What is wrong in the show of a graph, 11 before a wrong element.
pub fn decide(
    s: &[u8],
    vocabulary: &Tables,
    tables: &TemplateTables,
    templates: &Templates,
    graph: &Graph,
) -> Result<(), WrongShow>
    ensures { DecidesShow s.now vocabulary.now tables.now templates.now.count templates.now.starts graph.now result }
{
    if MOST_TEMPLATES < templates.count {
        return Ok(());
    }
    let mut classes = [[0u64; 4]; 32];
    let root = schemes::root_scheme(vocabulary.root);
    languages::settle(s, root, graph, templates, &mut classes);
    if let Some(t) = lowest_root(graphs::roots(graph), classes, templates.count) {
        return Err(WrongShow::NotRoot(t));
    }
    if let Some(wrong) = wrong_elements(s, vocabulary, tables, templates, graph, classes) {
        return Err(WrongShow::Element(wrong));
    }
    Ok(())
}
