// The entries of a proposal: what is held of a variable at a point, read again from the items under its head.
#![tactic(auto)]

ghost use Rattle.std.specs.Prelude.{◌≡◌, List, true, ◌||◌, ℕ, ◌<◌};
ghost use Rattle.sets.specs.Sets.{member};
ghost use Rattle.strings.specs.Inner.Promises.{holds_value};
ghost use Rattle.pages.specs.Items.{Items};
ghost use Rattle.pages.specs.Inner.Gaps.{GapsAre};
ghost use Rattle.summaries.specs.Proposal.{root, gap_from, attribute_gap_from, Holding, claim};
ghost use Rattle.summaries.specs.Summaries.{Summary, Strings, Within, fragment, plug_summary, plug_string_summary, says_claim, says_string, held};
ghost use Rattle.summaries.specs.Inner.Listed.{Listed, HoldingFits, meaning_of, string_meaning_of};
ghost use Rattle.graphs.specs.Inner.Graphs.{holds, Keeps, nothing};
ghost use Rattle.entries.specs.Inner.Passing.{passed, by_roots, by_plug, by_fill, wholly, without_roots, plugging, filling, Decides};
ghost use Rattle.entries.specs.Inner.Entries.{Loads, Unloads, ItemHolds, WithRoot, origin_of, with_origin};

use commands::{Context, Position};
use graphs::Graph;
use strings::Values;
use summaries::{Claim, StringClaim};

// Gaps are below 8, and so are attribute gaps.
const GAPS: u8 = 8;

// A value with these roots is plugged into a gap, whose origins become edges to the roots.
#[derive(Clone, Copy)]
pub struct Plugged {
    pub gap: u8,
    pub roots: u64,
}

// Strings are plugged into an attribute gap, whose origins take them.
#[derive(Clone, Copy)]
pub struct Filled {
    pub gap: u8,
    pub strings: Values,
}

// What of an entry passes into the value that a statement makes: its roots or not, and all else but for the origins of the gap that is
// plugged and of the attribute gap that is filled.
#[derive(Clone, Copy)]
pub struct Passing {
    pub roots: bool,
    pub plug: Option<Plugged>,
    pub fill: Option<Filled>,
}

// All of an entry passes.
pub fn wholly() -> Passing
    ensures { result ≡ wholly }
{
    Passing {
        roots: true,
        plug: None,
        fill: None,
    }
}

// All but the roots passes.
pub fn without_roots() -> Passing
    ensures { result ≡ without_roots }
{
    Passing {
        roots: false,
        plug: None,
        fill: None,
    }
}

// All passes, with a gap plugged.
pub fn plugging(gap: u8, roots: u64) -> Passing
    ensures { result ≡ plugging gap roots }
{
    Passing {
        roots: true,
        plug: Some(Plugged { gap, roots }),
        fill: None,
    }
}

// All passes, with an attribute gap filled.
pub fn filling(gap: u8, strings: Values) -> Passing
    ensures { result ≡ filling gap strings }
{
    Passing {
        roots: true,
        plug: None,
        fill: Some(Filled { gap, strings }),
    }
}

// The items from here on are added to a graph.
pub fn load(s: &[u8], here: Position, graph: &mut Graph)
    ensures { Loads s.now here.at graph.old graph.new }
{
    let mut at = here;
    while let Some((item, next)) = summaries::claim_here(s, at) {
        graphs::add(graph, item);
        at = next;
    }
}

// The items from here on, which were added to a graph that held nothing, are forgotten. The loop is that of `load`: what it keeps is another
// fact, so that a loop for both, with the step as a closure, would need the fact as a ghost argument as well.
fn unload(s: &[u8], here: Position, graph: &mut Graph)
    ensures { Unloads s.now here.at graph.old graph.new }
{
    let mut at = here;
    while let Some((item, next)) = summaries::claim_here(s, at) {
        graphs::forget(graph, item);
        at = next;
    }
}

// Whether a template is one of those to which a gap has edges.
fn edge_holds(edges: u64, m: u8) -> bool
    ensures { result ≡ member edges m }
{
    sets::is_member(edges, m)
}

// Whether a string is one of the values.
fn string_holds(values: Values, t: u8) -> bool
    ensures { result ≡ holds_value values t }
{
    match values {
        Values::Any => true,
        Values::Named(set) => strings::has(set, t),
    }
}

// A root passes unless roots are left out.
fn root_holds(graph: &Graph, n: u8, how: Passing) -> bool
    ensures { ItemHolds graph.now how (claim (root n)) result }
{
    if !how.roots {
        return true;
    }
    sets::is_member(graphs::roots(graph), n)
}

// An origin of the gap that is plugged stands for edges to the roots that are plugged in.
fn gap_holds(graph: &Graph, g: u8, n: u8, how: Passing) -> bool
    ensures { ItemHolds graph.now how (claim (gap_from g n)) result }
{
    match how.plug {
        Some(plug) if g == plug.gap => sets::is_within(plug.roots, graphs::edges(graph, n, g)),
        _ => sets::is_member(graphs::origins(graph, g), n),
    }
}

// An origin of the attribute gap that is filled stands for its strings.
fn attribute_holds(graph: &Graph, h: u8, n: u8, how: Passing) -> bool
    ensures { ItemHolds graph.now how (claim (attribute_gap_from h n)) result }
{
    match how.fill {
        Some(fill) if h == fill.gap => {
            strings::values_within(fill.strings, graphs::strings_at(graph, n, h))
        }
        _ => sets::is_member(graphs::attribute_origins(graph, h), n),
    }
}

// Whether what passes of an item lies within the entry that a graph keeps.
fn item_holds(graph: &Graph, item: Claim, how: Passing) -> bool
    ensures { ItemHolds graph.now how (meaning_of item) result }
{
    match item {
        Claim::Root(n) => root_holds(graph, n, how),
        Claim::Edge(n, g, m) => edge_holds(graphs::edges(graph, n, g), m),
        Claim::String(n, h, t) => string_holds(graphs::strings_at(graph, n, h), t),
        Claim::AnyString(n, h) => {
            let any = strings::any_value();
            let values = graphs::strings_at(graph, n, h);
            strings::values_within(any, values)
        }
        Claim::GapFrom(g, n) => gap_holds(graph, g, n, how),
        Claim::AttributeGapFrom(h, n) => attribute_holds(graph, h, n, how),
    }
}

// Whether all that passes of the items from here on lies within the entry that a graph keeps.
fn items_hold(s: &[u8], here: Position, graph: &Graph, how: Passing) -> bool
    ensures { (xs : List Holding) (R : Summary) → Listed Context.TemplateHoldings s.now here.at xs → Keeps graph.now R → Decides result (Within (passed how (held says_claim xs)) R) }
{
    let mut at = here;
    while let Some((item, next)) = summaries::claim_here(s, at) {
        if !item_holds(graph, item, how) {
            return false;
        }
        at = next;
    }
    true
}

// A set of templates with the root that an item says, if it says one.
fn with_root(found: u64, item: Claim) -> u64
    ensures { WithRoot found (meaning_of item) result }
{
    match item {
        Claim::Root(n) => sets::with(found, n % 64),
        _ => found,
    }
}

// The roots among the items from here on.
pub fn roots_of(s: &[u8], here: Position) -> u64
    ensures { (xs : List Holding) → Listed Context.TemplateHoldings s.now here.at xs → (n : ℕ) → held says_claim xs (root n) ≡ member result n }
{
    let mut found: u64 = 0;
    let mut at = here;
    while let Some((item, next)) = summaries::claim_here(s, at) {
        found = with_root(found, item);
        at = next;
    }
    found
}

// The strings that an item says.
fn said_by(item: StringClaim) -> Values
    requires { HoldingFits (string_meaning_of item) }
    ensures { (t : ℕ) → holds_value result t ≡ says_string (string_meaning_of item) t }
{
    match item {
        StringClaim::One(t) => strings::one_value(t),
        StringClaim::Any => strings::any_value(),
    }
}

// The strings that the items from here on say.
pub fn strings_of(s: &[u8], here: Position) -> Values
    ensures { (xs : List Holding) → Listed Context.StringHoldings s.now here.at xs → (t : ℕ) → held says_string xs t ≡ holds_value result t }
{
    let mut found = strings::no_values();
    let mut at = here;
    while let Some((item, next)) = summaries::string_here(s, at) {
        found = strings::values_union(found, said_by(item));
        at = next;
    }
    found
}

// Whether a template is an origin of a gap, if it has the gap: gap k is bit k, attribute gap h is bit 8 + h.
fn origin_holds(graph: &Graph, k: u8, n: u8, gaps: u64) -> bool
    requires { k < 16 }
    ensures { Decides result (member gaps k ≡ true → holds graph.now (origin_of k n) ≡ true) }
{
    if !sets::has(gaps, k) {
        return true;
    }
    if k < 8 {
        return sets::is_member(graphs::origins(graph, k), n);
    }
    sets::is_member(graphs::attribute_origins(graph, k - 8), n)
}

// Whether what is held of a template that is just loaded lies within the entry that a graph keeps.
fn fragment_holds(graph: &Graph, t: u8, gaps: u64) -> bool
    ensures { (φ : Items) (R : Summary) → GapsAre gaps φ → Keeps graph.now R → Decides result (Within (fragment t φ) R) }
{
    if !sets::is_member(graphs::roots(graph), t) {
        return false;
    }
    for k in 0..16u8 {
        if !origin_holds(graph, k, t, gaps) {
            return false;
        }
    }
    true
}

// Whether one entry lies within another, both given by where their items stand. The graph is lent empty and handed back empty.
// Here and in the three below a graph is filled, asked and emptied by three lines. With the question as a closure these would be one line,
// beside a function that has to say of the closure what each of the four now says by itself.
pub fn entry_within(s: &[u8], from: Position, there: Position, graph: &mut Graph) -> bool
    requires { Keeps graph.old nothing }
    ensures decides { (xs ys : List Holding) → Listed Context.TemplateHoldings s.now from.at xs → Listed Context.TemplateHoldings s.now there.at ys → Decides result (Within (held says_claim xs) (held says_claim ys)) }
    ensures empty { Keeps graph.new nothing }
{
    load(s, there, graph);
    let holds = items_hold(s, from, graph, wholly());
    unload(s, there, graph);
    holds
}

// Whether what is held of a template that is just loaded lies within the entry whose items stand there.
pub fn fragment_within(s: &[u8], t: u8, gaps: u64, there: Position, graph: &mut Graph) -> bool
    requires { Keeps graph.old nothing }
    ensures decides { (φ : Items) (ys : List Holding) → GapsAre gaps φ → Listed Context.TemplateHoldings s.now there.at ys → Decides result (Within (fragment t φ) (held says_claim ys)) }
    ensures empty { Keeps graph.new nothing }
{
    load(s, there, graph);
    let holds = fragment_holds(graph, t, gaps);
    unload(s, there, graph);
    holds
}

// Whether the plug of the second entry into a gap of the first lies within the entry that a graph keeps.
fn plug_holds(s: &[u8], first: Position, gap: u8, second: Position, graph: &Graph) -> bool
    ensures { (xs ys : List Holding) (R : Summary) → Listed Context.TemplateHoldings s.now first.at xs → Listed Context.TemplateHoldings s.now second.at ys → Keeps graph.now R → Decides result (Within (plug_summary gap (held says_claim xs) (held says_claim ys)) R) }
{
    let roots = roots_of(s, second);
    items_hold(s, first, graph, plugging(gap, roots))
        && items_hold(s, second, graph, without_roots())
}

// Whether the plug of the second entry into a gap of the first lies within the entry whose items stand there.
pub fn plug_within(
    s: &[u8],
    first: Position,
    gap: u8,
    second: Position,
    there: Position,
    graph: &mut Graph,
) -> bool
    requires { Keeps graph.old nothing }
    ensures decides { (xs ys zs : List Holding) → Listed Context.TemplateHoldings s.now first.at xs → Listed Context.TemplateHoldings s.now second.at ys → Listed Context.TemplateHoldings s.now there.at zs → Decides result (Within (plug_summary gap (held says_claim xs) (held says_claim ys)) (held says_claim zs)) }
    ensures empty { Keeps graph.new nothing }
{
    load(s, there, graph);
    let holds = plug_holds(s, first, gap, second, graph);
    unload(s, there, graph);
    holds
}

// Whether an entry with strings plugged into an attribute gap lies within the entry whose items stand there.
pub fn fill_within(
    s: &[u8],
    from: Position,
    attribute: u8,
    strings: Values,
    there: Position,
    graph: &mut Graph,
) -> bool
    requires { Keeps graph.old nothing }
    ensures decides { (xs : List Holding) (Y : Strings) (zs : List Holding) → Listed Context.TemplateHoldings s.now from.at xs → ((t : ℕ) → Y t ≡ holds_value strings t) → Listed Context.TemplateHoldings s.now there.at zs → Decides result (Within (plug_string_summary attribute (held says_claim xs) Y) (held says_claim zs)) }
    ensures empty { Keeps graph.new nothing }
{
    load(s, there, graph);
    let holds = items_hold(s, from, graph, filling(attribute, strings));
    unload(s, there, graph);
    holds
}

// Whether the strings of one string variable are strings of another, both given by where their items stand.
pub fn strings_entry_within(s: &[u8], from: Position, there: Position) -> bool
    ensures { (xs ys : List Holding) → Listed Context.StringHoldings s.now from.at xs → Listed Context.StringHoldings s.now there.at ys → Decides result (Within (held says_string xs) (held says_string ys)) }
{
    strings::values_within(strings_of(s, from), strings_of(s, there))
}

// The roots pass or not.
fn pass_roots(graph: &mut Graph, roots: bool)
    ensures { (S : Summary) → Keeps graph.old S → Keeps graph.new (passed (by_roots roots) S) }
{
    if !roots {
        graphs::drop_roots(graph);
    }
}

// The origins of the gap that is plugged become edges to the roots that are plugged in. No gap is 8 or higher.
fn pass_gap(graph: &mut Graph, plug: Option<Plugged>)
    ensures { (S : Summary) → Keeps graph.old S → Keeps graph.new (passed (by_plug plug) S) }
{
    let Some(plug) = plug else {
        return;
    };
    if GAPS <= plug.gap {
        return;
    }
    let open = graphs::origins(graph, plug.gap);
    graphs::add_edges(graph, open, plug.gap, plug.roots);
    graphs::drop_origins(graph, plug.gap);
}

// The origins of the attribute gap that is filled take its strings. It goes as `pass_gap`, over other words and other claims.
fn pass_attribute(graph: &mut Graph, fill: Option<Filled>)
    ensures { (S : Summary) → Keeps graph.old S → Keeps graph.new (passed (by_fill fill) S) }
{
    let Some(fill) = fill else {
        return;
    };
    if GAPS <= fill.gap {
        return;
    }
    let open = graphs::attribute_origins(graph, fill.gap);
    graphs::add_strings(graph, open, fill.gap, fill.strings);
    graphs::drop_attribute_origins(graph, fill.gap);
}

// The graph holds what passes of what it held.
pub fn pass(graph: &mut Graph, how: Passing)
    ensures { (S : Summary) → Keeps graph.old S → Keeps graph.new (passed how S) }
{
    pass_roots(graph, how.roots);
    pass_gap(graph, how.plug);
    pass_attribute(graph, how.fill);
}

// The first graph then holds its value with that of the second in place of a gap; the second is left without its roots.
pub fn plug(graph: &mut Graph, gap: u8, second: &mut Graph)
    ensures { (S T : Summary) → Keeps graph.old S → Keeps second.old T → Keeps graph.new (plug_summary gap S T) }
{
    let roots = graphs::roots(second);
    pass(graph, plugging(gap, roots));
    pass(second, without_roots());
    graphs::join(graph, second);
}

// A template is an origin of a gap, if it has the gap: gap k is bit k, attribute gap h is bit 8 + h.
fn add_origin(graph: &mut Graph, k: u8, n: u8, gaps: u64)
    requires { k < 16 }
    ensures { n < 32 → (R : Summary) → Keeps graph.old R → Keeps graph.new (with_origin k n gaps R) }
{
    if !sets::has(gaps, k) {
        return;
    }
    if k < 8 {
        graphs::add(graph, Claim::GapFrom(k, n));
        return;
    }
    graphs::add(graph, Claim::AttributeGapFrom(k - 8, n));
}

// The graph also holds what is held of a template that is just loaded.
pub fn add_template(graph: &mut Graph, t: u8, gaps: u64)
    ensures { (φ : Items) (R : Summary) → GapsAre gaps φ → t < 32 → Keeps graph.old R → Keeps graph.new (λ c. R c || fragment t φ c) }
{
    graphs::add(graph, Claim::Root(t));
    for k in 0..16u8 {
        add_origin(graph, k, t, gaps);
    }
}
