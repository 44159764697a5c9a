// The elements of a page under the rules of a vocabulary: their attributes, their contents, and the clauses that they meet.
#![tactic(auto)]

ghost use Rattle.std.specs.Prelude.{◌≡◌, not, ◌&&◌, ◌||◌, List, [], ◌∷◌, ◌++◌, ℕ, ◌%◌, ◌≤◌, ◌<◌, length, get_or, ltb, None};
ghost use Rattle.sets.specs.Sets.{member};
ghost use Rattle.strings.specs.Inner.Promises.{set_number};
ghost use Rattle.vocabularies.specs.Vocabulary.{Vocabulary};
ghost use Rattle.pages.specs.Inner.Steps.{item_here};
ghost use Rattle.judging.specs.Inner.Promises.{first_place, last_place, table_atoms, broken_by, Holds, Decides, FirstFails, Settled, Remembered, Names, Counted, Containing, TellsOutcome, Tabled, step_next, JudgesItem, JudgesItems};

use commands::Position;
use pages::{AttributeHere, ItemHere, TEXT};
use strings::StringSet;
use verdicts::Breach;
use vocabularies::{FormulaHere, Rule};

// An answer about a formula, yes or no, and the position after it.
#[derive(Clone, Copy)]
struct Held {
    pub value: bool,
    pub next: Position,
}

// The attributes and the contents of an element, as sets.
#[derive(Clone, Copy, PartialEq, Eq)]
pub struct Shape {
    pub names: u64,
    pub contents: u64,
}

// What is known of a shape: the offset from which on all elements of that shape meet all clauses, and where the clauses stand of the rule
// for which that was found.
#[derive(Clone, Copy)]
pub struct Known {
    pub shape: Shape,
    pub settled: usize,
    pub clauses: usize,
}

// The first clause that fails, if one does, and the offset from which on all elements of the same shape meet all clauses.
#[derive(Clone, Copy)]
pub struct Met {
    pub breach: Option<Breach>,
    pub settled: usize,
}

// The names of an element's attributes, and the position after them.
#[derive(Clone, Copy)]
pub struct Named {
    pub names: u64,
    pub next: Position,
}

// A wrong element, by the offset of its `23`, and what it breaks of its rule.
#[derive(Clone, Copy)]
pub struct WrongElement {
    pub at: usize,
    pub breach: Breach,
}

// An item that was judged: the position after it, and the first wrong element in it.
#[derive(Clone, Copy)]
pub struct Judged {
    pub next: Position,
    pub wrong: Option<WrongElement>,
}

// A list of items that was judged: its contents as a set, the position after it, and the first wrong element in it.
#[derive(Clone, Copy)]
pub struct Listed {
    pub contents: u64,
    pub next: Position,
    pub wrong: Option<WrongElement>,
}

// The contents of an element so far: as a set, and how many different ones they are.
#[derive(Clone, Copy)]
pub struct Contents {
    pub set: u64,
    pub count: u8,
}

// Where the contents of a kind stand in an element: how many different contents stand before the first of them, and how many before the
// last.
#[derive(Clone, Copy)]
pub struct Standing {
    pub first: u8,
    pub last: u8,
}

impl Held {
    // Whether it is so of this formula and of the one after it.
    fn and(self, second: Held) -> Held
        ensures { result ≡ record { value = self.value && second.value; next = second.next } }
    {
        Held {
            value: self.value && second.value,
            next: second.next,
        }
    }

    // Whether it is so of one of them.
    fn or(self, second: Held) -> Held
        ensures { result ≡ record { value = self.value || second.value; next = second.next } }
    {
        Held {
            value: self.value || second.value,
            next: second.next,
        }
    }

    // Whether it is not so of this formula.
    fn not(self) -> Held
        ensures { result ≡ record { value = not self.value; next = self.next } }
    {
        Held {
            value: !self.value,
            next: self.next,
        }
    }
}

// No d stands before a c.
fn is_ordered(contents: u64, order: &[Standing; 64], c: u8, d: u8) -> bool
    ensures { result ≡ not (member contents c && (member contents d && ltb (first_place order.now d) (last_place order.now c))) }
{
    if !sets::is_member(contents, c) {
        return true;
    }
    if !sets::is_member(contents, d) {
        return true;
    }
    let i = c as usize;
    let j = d as usize;
    order[i].last <= order[j].first
}

// Attribute a is absent, or has a string of the set m.
fn is_absent_or_valued(names: u64, strings: &[u8; 32], a: u8, m: StringSet) -> bool
    ensures { result ≡ (not (member names a) || member (set_number m) (get_or strings.now (a % 32) 0)) }
{
    if !sets::is_member(names, a) {
        return true;
    }
    let i = (a % 32) as usize;
    strings::has(m, strings[i])
}

// Whether the formula here holds of an element with these tables. The forms stand in the order of source 000's grammar.
fn holds(v: &[u8], here: Position, shape: Shape, strings: &[u8; 32], order: &[Standing; 64]) -> Held
    ensures forward { here.at ≤ result.next.at }
    ensures truth { Holds (table_atoms shape strings.now order.now) v.now here.at result.value result.next.at }
{
    let formula = vocabularies::formula_here(v, here);
    match formula {
        FormulaHere::Conj(next) => {
            let first = holds(v, next, shape, strings, order);
            let second = holds(v, first.next, shape, strings, order);
            first.and(second)
        }
        FormulaHere::Disj(next) => {
            let first = holds(v, next, shape, strings, order);
            let second = holds(v, first.next, shape, strings, order);
            first.or(second)
        }
        FormulaHere::Neg(next) => {
            let only = holds(v, next, shape, strings, order);
            only.not()
        }
        FormulaHere::Truth(next) => Held { value: true, next },
        FormulaHere::Attr(a, next) => Held {
            value: sets::is_member(shape.names, a),
            next,
        },
        FormulaHere::Content(c, next) => Held {
            value: sets::is_member(shape.contents, c),
            next,
        },
        FormulaHere::Order(c, d, next) => Held {
            value: is_ordered(shape.contents, order, c, d),
            next,
        },
        FormulaHere::Value(a, m, next) => Held {
            value: is_absent_or_valued(shape.names, strings, a, m),
            next,
        },
        FormulaHere::Nothing => Held {
            value: false,
            next: here,
        },
    }
}

// One of two is no member.
fn lacks_one(set: u64, c: u8, d: u8) -> bool
    ensures { result ≡ not (member set c && member set d) }
{
    if !sets::is_member(set, c) {
        return true;
    }
    !sets::is_member(set, d)
}

// Whether the formula here is as true of one element of this shape as of another: it looks at no order of two contents that both stand
// inside, and at no string of an attribute that is there. Of a disjunction, too, both parts have to be so.
fn is_settled(v: &[u8], here: Position, shape: Shape) -> Held
    ensures forward { here.at ≤ result.next.at }
    ensures settled { Decides shape v.now here.at result.value result.next.at }
{
    let formula = vocabularies::formula_here(v, here);
    match formula {
        FormulaHere::Conj(next) => {
            let first = is_settled(v, next, shape);
            let second = is_settled(v, first.next, shape);
            first.and(second)
        }
        FormulaHere::Disj(next) => {
            let first = is_settled(v, next, shape);
            let second = is_settled(v, first.next, shape);
            first.and(second)
        }
        FormulaHere::Neg(next) => is_settled(v, next, shape),
        FormulaHere::Truth(next) => Held { value: true, next },
        FormulaHere::Attr(_, next) => Held { value: true, next },
        FormulaHere::Content(_, next) => Held { value: true, next },
        FormulaHere::Order(c, d, next) => Held {
            value: lacks_one(shape.contents, c, d),
            next,
        },
        FormulaHere::Value(a, _, next) => Held {
            value: !sets::is_member(shape.names, a),
            next,
        },
        FormulaHere::Nothing => Held {
            value: false,
            next: here,
        },
    }
}

// The first clause from here on that an element with these tables fails. Those from `to` on are met by all of its shape; while no offset is
// known for the shape and the rule, `to` is the end of the bytes, and the offset is found on the way.
fn first_failing(
    v: &[u8],
    from: Position,
    to: usize,
    shape: Shape,
    strings: &[u8; 32],
    order: &[Standing; 64],
) -> Met
    requires { Settled v.now shape to }
    ensures first { FirstFails (table_atoms shape strings.now order.now) v.now from.at 0 (broken_by result.breach) }
    ensures settled { Settled v.now shape result.settled }
{
    let mut here = from;
    // Counts the clauses beside the position that moves over them.
    let mut place: usize = 0;
    let mut settled = from.at;
    while here.at != to {
        let Some(start) = here.past(v, 0x04) else {
            return Met {
                breach: None,
                settled,
            };
        };
        let held = holds(v, start, shape, strings, order);
        if !held.value {
            return Met {
                breach: Some(Breach::Clause(place)),
                settled: v.len(),
            };
        }
        here = held.next;
        place += 1;
        if to < v.len() {
            settled = here.at;
        } else {
            let same = is_settled(v, start, shape);
            if !same.value {
                settled = here.at;
            }
        }
    }
    Met {
        breach: None,
        settled,
    }
}

// The table of shapes before the first element: no clauses stand from the end of the bytes on.
pub fn no_shapes(v: &[u8]) -> [Known; 64]
    ensures { Remembered v.now result }
{
    let shape = Shape {
        names: 0,
        contents: 0,
    };
    let nothing = Known {
        shape,
        settled: v.len(),
        clauses: 0,
    };
    [nothing; 64]
}

// The place in the table of shapes of an element with this shape, whose rule has its clauses at an offset. Any would do; shapes that
// are met often should not share one.
fn shape_place(shape: Shape, from: usize) -> usize
    ensures { result < 64 }
{
    let both = shape.names ^ shape.contents ^ (shape.contents >> 32);
    let folded = both ^ (both >> 16);
    ((folded ^ (folded >> 6) ^ (folded >> 12) ^ from as u64) % 64) as usize
}

// The offset from which on all elements of this shape are known to meet all clauses, by what stands at a place of the table for the rule
// that has its clauses at `from`; the end of the bytes, where nothing stands there for it.
fn settled_from(v: &[u8], shapes: &[Known; 64], place: usize, shape: Shape, from: usize) -> usize
    requires { (place < 64) × Remembered v.now shapes.now }
    ensures { Settled v.now shape result }
{
    let known = shapes[place];
    if known.shape == shape && known.clauses == from {
        return known.settled;
    }
    v.len()
}

// That offset is kept at the place, for elements that come later.
fn remember(
    v: &[u8],
    shapes: &mut [Known; 64],
    place: usize,
    shape: Shape,
    from: usize,
    settled: usize,
)
    requires { (place < 64) × Remembered v.now shapes.old × Settled v.now shape settled }
    ensures { Remembered v.now shapes.new }
{
    shapes[place] = Known {
        shape,
        settled,
        clauses: from,
    };
}

// Whether an element with these tables is right under a rule, or what it breaks: an attribute before a content, a content before a clause.
fn outcome_of(
    v: &[u8],
    rule: Rule,
    shape: Shape,
    strings: &[u8; 32],
    order: &[Standing; 64],
    shapes: &mut [Known; 64],
) -> Option<Breach>
    requires { Remembered v.now shapes.old }
    ensures outcome { TellsOutcome v.now rule shape strings.now order.now result }
    ensures remembered { Remembered v.now shapes.new }
{
    if !sets::is_within(shape.names, rule.attributes) {
        return Some(Breach::Attribute);
    }
    if !sets::is_within(shape.contents, rule.contents) {
        return Some(Breach::Content);
    }
    let from = rule.clauses;
    let place = shape_place(shape, from.at);
    let to = settled_from(v, shapes, place, shape, from.at);
    let met = first_failing(v, from, to, shape, strings, order);
    remember(v, shapes, place, shape, from.at, met.settled);
    met.breach
}

// The attributes straight after `23 e`: their names, and in `strings` the string of each.
fn read_attributes(p: &[u8], here: Position, strings: &mut [u8; 32]) -> Named
    requires { length strings.old ≡ 32 }
    ensures forward { here.at ≤ result.next.at }
    ensures named { Names p.now here.at result strings.new }
{
    let mut names: u64 = 0;
    let mut place = here;
    loop {
        let attribute = pages::attribute_here(p, place);
        match attribute {
            AttributeHere::Fixed { name, string, next } => {
                let i = name as usize;
                names = sets::with(names, name);
                strings[i] = string;
                place = next;
            }
            AttributeHere::Open { name, gap: _, next } => {
                names = sets::with(names, name);
                place = next;
            }
            AttributeHere::Done => {
                return Named { names, next: place };
            }
        }
    }
}

// One content more, behind those inside.
fn add_content(order: &mut [Standing; 64], inside: Contents, c: u8) -> Contents
    requires { (length order.old ≡ 64) × (c < 64) × Counted inside }
    ensures long { length order.new ≡ 64 }
    ensures counted { Counted result }
    ensures more { (w : List ℕ) → Containing w inside.set order.old inside.count → Containing (w ++ (c ∷ [])) result.set order.new result.count }
{
    let i = c as usize;
    let count = inside.count;
    if sets::has(inside.set, c) {
        order[i].last = count;
        return inside;
    }
    order[i] = Standing {
        first: count,
        last: count,
    };
    let set = sets::with(inside.set, c);
    let counted = count + 1;
    Contents {
        set,
        count: counted,
    }
}

// An item that is no element has nothing in it.
fn judge_leaf(item: ItemHere) -> Judged
    ensures { result ≡ record { next = step_next item; wrong = None } }
{
    let wrong = None;
    match item {
        ItemHere::Text(next) => Judged { next, wrong },
        ItemHere::Gap(_, next) => Judged { next, wrong },
        ItemHere::Element(_, next) => Judged { next, wrong },
        ItemHere::Blank(next) => Judged { next, wrong },
        ItemHere::End(next) => Judged { next, wrong },
    }
}

// The item here, under the rules of a vocabulary. An element is judged before those inside it. `shapes` has the shapes of some
// that were judged, and from where on all elements of such a shape meet the clauses.
#[cycle(judge_item_judge_items)]
pub fn judge_item(
    v: &[u8],
    rules: &[Rule; 64],
    p: &[u8],
    here: Position,
    shapes: &mut [Known; 64],
) -> Judged
    requires { Remembered v.now shapes.old }
    ensures remembered { Remembered v.now shapes.new }
    ensures forward { (step_next (item_here p.now here.at)).at ≤ result.next.at }
    ensures judged { (D : Vocabulary) → Tabled v.now D rules.now → JudgesItem D p.now here.at result }
{
    let item = pages::item_here(p, here);
    let ItemHere::Element(e, start) = item else {
        return judge_leaf(item);
    };
    let mut strings = [0u8; 32];
    let named = read_attributes(p, start, &mut strings);
    let inside = named.next;
    let mut order = [Standing { first: 0, last: 0 }; 64];
    let list = judge_items(v, rules, p, inside, &mut order, shapes);
    let shape = Shape {
        names: named.names,
        contents: list.contents,
    };
    let rule = rules[e as usize];
    let outcome = outcome_of(v, rule, shape, &strings, &order, shapes);
    let wrong = match outcome {
        Some(breach) => Some(WrongElement {
            at: here.at,
            breach,
        }),
        None => list.wrong,
    };
    Judged {
        next: list.next,
        wrong,
    }
}

// The items from here on, up to what ends their list.
#[cycle(judge_item_judge_items)]
fn judge_items(
    v: &[u8],
    rules: &[Rule; 64],
    p: &[u8],
    here: Position,
    order: &mut [Standing; 64],
    shapes: &mut [Known; 64],
) -> Listed
    requires { (length order.old ≡ 64) × Remembered v.now shapes.old }
    ensures remembered { Remembered v.now shapes.new }
    ensures forward { here.at ≤ result.next.at }
    ensures judged { (D : Vocabulary) → Tabled v.now D rules.now → JudgesItems D p.now here.at result order.new }
{
    let mut place = here;
    let mut inside = Contents { set: 0, count: 0 };
    let mut wrong = None;
    loop {
        let item = pages::item_here(p, place);
        match item {
            ItemHere::Text(next) => {
                inside = add_content(order, inside, TEXT);
                place = next;
            }
            ItemHere::Gap(_, next) => {
                place = next;
            }
            ItemHere::Element(e, _) => {
                let judged = judge_item(v, rules, p, place, shapes);
                inside = add_content(order, inside, e);
                wrong = wrong.or(judged.wrong);
                place = judged.next;
            }
            ItemHere::Blank(next) => {
                place = next;
            }
            ItemHere::End(next) => {
                return Listed {
                    contents: inside.set,
                    next,
                    wrong,
                };
            }
        }
    }
}
