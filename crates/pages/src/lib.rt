// Pages and templates: how their items are read (document 01, "A job, command by command", Templates; "Judge a page").
#![tactic(auto)]

ghost use Rattle.std.specs.Prelude.{◌≡◌, List, [], ℕ, ◌≤◌, ◌<◌, length, get_or};
ghost use Rattle.sets.specs.Sets.{member};
ghost use Rattle.commands.specs.Reading.{enough};
ghost use Rattle.commands.specs.Inner.Parts.{Agrees};
ghost use Rattle.pages.specs.ItemReading.{item_context, attribute_context, nesting, end_of, items};
ghost use Rattle.pages.specs.Inner.Steps.{item_here, ItemMoves, attribute_here, AttributeMoves, AfterAttributes};
ghost use Rattle.pages.specs.Inner.Gaps.{AttributeGaps, ElementGaps, ItemsGaps, ItemsStand, StartsAt, GapsAre};
ghost use Rattle.pages.specs.Items.{Items, template_at};
ghost use Rattle.pages.specs.Inner.Promises.{AttributesRead, ItemsRead, ItemRead, TemplatesFrom};

use commands::{Context, Decoded, Position, ReadError};
use verdicts::Form;

pub const MOST_BYTES: usize = 65535;

pub const MOST_TEMPLATES: usize = 31;

// Content 0 is text, the others are elements.
pub const TEXT: u8 = 0;

// Which list of items is read: a template of a job, or a page that is judged alone.
#[derive(Clone, Copy)]
pub enum Kind {
    Template,
    Page,
}

// The templates of a job: how many, and where the items of each stand, from template 1 on. Memory is fixed, so there is room for the
// most that a job may have.
#[derive(Clone, Copy)]
pub struct Templates {
    pub count: usize,
    pub starts: [usize; 32],
}

// What stands at a position in a list of items that was read: an item, with the position after its first command, or what ends the
// list, with the position after that. After the first command of an element stand its attributes.
#[derive(Clone, Copy)]
pub enum ItemHere {
    Text(Position),
    Gap(u8, Position),
    Element(u8, Position),
    Blank(Position),
    End(Position),
}

// What stands at a position in attributes that were read: one with a string (64 is any string outside 0 to 63), or with an attribute
// gap; or none more, a case like the others, since a walk's one match on an Option around two cases would be no plainer.
#[derive(Clone, Copy)]
pub enum AttributeHere {
    Fixed {
        name: u8,
        string: u8,
        next: Position,
    },
    Open {
        name: u8,
        gap: u8,
        next: Position,
    },
    Done,
}

// The gaps found so far, bit g for gap g and bit 8 + h for attribute gap h, and the position after what was searched.
#[derive(Clone, Copy)]
pub struct GapsFound {
    pub gaps: u64,
    pub next: Position,
}

// What an attribute of `28` has: a string outside 0 to 63, which is a string too and no lack of one.
const OUTSIDE: u8 = 64;

// What may stand in a list of items: which items and attributes, and how many elements open above one another.
#[derive(Clone, Copy)]
struct Allowed {
    items: Context,
    attributes: Context,
    nesting: usize,
}

impl Kind {
    fn allowed(self) -> Allowed
        ensures items { result.items ≡ item_context self }
        ensures attributes { result.attributes ≡ attribute_context self }
        ensures nesting { result.nesting ≡ nesting self }
    {
        match self {
            Kind::Template => Allowed {
                items: Context::TemplateItems,
                attributes: Context::TemplateAttributes,
                nesting: 16,
            },
            Kind::Page => Allowed {
                items: Context::PageItems,
                attributes: Context::PageAttributes,
                nesting: 1024,
            },
        }
    }
}

// `27` ends a template or a page, `26` an element.
fn end_of(depth: usize) -> u8
    ensures { result ≡ end_of depth }
{
    if depth == 0 { 0x27 } else { 0x26 }
}

// One step of a walk over items that were read.
pub fn item_here(s: &[u8], here: Position) -> ItemHere
    ensures is { result ≡ item_here s.now here.at }
    ensures moves { ItemMoves s.now here.at result }
{
    if s.len() <= here.at {
        return ItemHere::End(here);
    }
    match here.operand(s, 0) {
        0x21 => ItemHere::Text(here.on(1)),
        0x22 => ItemHere::Gap(here.operand(s, 1) % 8, here.on(2)),
        0x23 => ItemHere::Element(here.operand(s, 1) % 64, here.on(2)),
        0x29 => ItemHere::Blank(here.on(1)),
        _ => ItemHere::End(here.on(1)),
    }
}

// One step of a walk over attributes that were read.
pub fn attribute_here(s: &[u8], here: Position) -> AttributeHere
    ensures is { result ≡ attribute_here s.now here.at }
    ensures moves { AttributeMoves s.now here.at result }
{
    if s.len() <= here.at {
        return AttributeHere::Done;
    }
    let name = here.operand(s, 1) % 32;
    match here.operand(s, 0) {
        0x24 => AttributeHere::Fixed {
            name,
            string: here.operand(s, 2) % 64,
            next: here.on(3),
        },
        0x25 => AttributeHere::Open {
            name,
            gap: here.operand(s, 2) % 8,
            next: here.on(3),
        },
        0x28 => AttributeHere::Fixed {
            name,
            string: OUTSIDE,
            next: here.on(2),
        },
        _ => AttributeHere::Done,
    }
}

// The position after the attributes here.
pub fn after_attributes(s: &[u8], here: Position) -> Position
    ensures forward { here.at ≤ result.at }
    ensures after { AfterAttributes s.now here.at result }
{
    let mut p = here;
    loop {
        let attribute = attribute_here(s, p);
        match attribute {
            AttributeHere::Fixed { next, .. } | AttributeHere::Open { next, .. } => p = next,
            AttributeHere::Done => return p,
        }
    }
}

// The gaps of the attributes after those found, added to them.
fn attribute_gaps(s: &[u8], before: GapsFound) -> GapsFound
    ensures forward { before.next.at ≤ result.next.at }
    ensures found { AttributeGaps s.now before.next.at before.gaps result }
{
    let mut found = before;
    loop {
        let attribute = attribute_here(s, found.next);
        match attribute {
            AttributeHere::Fixed { next, .. } => found.next = next,
            AttributeHere::Open { gap, next, .. } => {
                found.gaps = sets::with(found.gaps, 8 + gap);
                found.next = next;
            }
            AttributeHere::Done => return found,
        }
    }
}

// The gaps of an element whose attributes stand after those found, added to them.
#[cycle(element_gaps_items_gaps)]
fn element_gaps(s: &[u8], before: GapsFound) -> GapsFound
    ensures forward { before.next.at ≤ result.next.at }
    ensures found { ElementGaps s.now before.next.at before.gaps result }
{
    let named = attribute_gaps(s, before);
    items_gaps(s, named)
}

// The gaps of the list of items after those found, added to them.
#[cycle(element_gaps_items_gaps)]
fn items_gaps(s: &[u8], before: GapsFound) -> GapsFound
    ensures forward { before.next.at ≤ result.next.at }
    ensures found { ItemsGaps s.now before.next.at before.gaps result }
{
    let mut found = before;
    loop {
        let item = item_here(s, found.next);
        match item {
            ItemHere::Text(next) => found.next = next,
            ItemHere::Gap(g, next) => {
                found.gaps = sets::with(found.gaps, g);
                found.next = next;
            }
            ItemHere::Element(_, next) => {
                found.next = next;
                found = element_gaps(s, found);
            }
            ItemHere::Blank(next) => found.next = next,
            ItemHere::End(next) => {
                found.next = next;
                return found;
            }
        }
    }
}

// The gaps of the template whose items stand here.
fn gaps_at(s: &[u8], here: Position) -> u64
    ensures { (φ : Items) → ItemsStand s.now here.at φ → GapsAre result φ }
{
    let none = GapsFound {
        gaps: 0,
        next: here,
    };
    items_gaps(s, none).gaps
}

// The gaps of every template. Template 0 has none.
pub fn gaps_of(s: &[u8], templates: &Templates) -> [u64; 32]
    ensures { (φs : List Items) → StartsAt s.now φs templates.now.starts → templates.now.count ≡ length φs → (t : ℕ) → t ≤ templates.now.count → t < 32 → GapsAre (get_or result t 0) (template_at φs t) }
{
    let mut table = [0u64; 32];
    for t in 1..32 {
        if templates.count < t {
            return table;
        }
        table[t] = gaps_at(s, Position::new(templates.starts[t]));
    }
    table
}

// What lists of items are read in: bytes, and the set of elements that have a rule. Its methods take it by value: lent, it would be loaded anew
// for every item. The kind of the lists is no field, since every element copies the struct, and a field of one byte makes that slow.
#[derive(Clone, Copy)]
struct Reading<'a> {
    declared: u64,
    s: &'a [u8],
}

impl<'a> Reading<'a> {
    // A list of items below `depth` open elements, up to and with what ends it.
    #[cycle(read_item_read_items)]
    fn read_items(self, kind: Kind, here: Position, depth: usize) -> Result<Position, ReadError>
        ensures { ItemsRead kind (member self.entry.declared) self.entry.s.now depth here.at result }
    {
        let end = end_of(depth);
        let mut p = here;
        loop {
            if let Some(next) = p.past(self.s, end) {
                return Ok(next);
            }
            p = self.read_item(kind, p, depth)?;
        }
    }

    // Text, blank text, a gap, or an element with its attributes and contents.
    #[cycle(read_item_read_items)]
    fn read_item(self, kind: Kind, here: Position, depth: usize) -> Result<Position, ReadError>
        ensures { ItemRead kind (member self.entry.declared) self.entry.s.now depth here.at result }
    {
        let d = here.item_command(self.s, kind.allowed().items);
        let Decoded::Moved(code, next) = d else {
            return Err(d.refusal());
        };
        if code != 0x23 {
            return Ok(next);
        }
        if !sets::has(self.declared, here.operand(self.s, 1)) {
            return Err(ReadError {
                form: Form::Missing,
                at: here.at,
            });
        }
        if kind.allowed().nesting <= depth {
            return Err(ReadError {
                form: Form::TooMany,
                at: here.at,
            });
        }
        let inside = self.read_attributes(kind, next)?;
        // As the last expression this call would have the room for its answer cleared for every item.
        let after = self.read_items(kind, inside, depth + 1)?;
        Ok(after)
    }

    // The attributes straight after `23 e`: none is named twice.
    fn read_attributes(self, kind: Kind, here: Position) -> Result<Position, ReadError>
        ensures { AttributesRead kind self.entry.s.now [] here.at result }
    {
        let context = kind.allowed().attributes;
        let mut seen: u64 = 0;
        let mut p = here;
        while commands::is_allowed(context, commands::byte_at(self.s, p.at)) {
            let d = p.attribute_command(self.s, context);
            let Decoded::Moved(_, next) = d else {
                return Err(d.refusal());
            };
            let name = p.operand(self.s, 1);
            if sets::has(seen, name) {
                return Err(ReadError {
                    form: Form::NotRising,
                    at: p.at,
                });
            }
            seen = sets::with(seen, name);
            p = next;
        }
        Ok(p)
    }
}

// A page, from the first byte on.
pub fn read_page(declared: u64, s: &[u8]) -> Result<Position, ReadError>
    ensures { Agrees (items (enough s.now) Kind.Page (member declared) s.now 0 0) result }
{
    let reading = Reading { declared, s };
    reading.read_items(Kind::Page, Position::new(0), 0)
}

// The templates of a job, up to `2F`.
pub fn read_templates(
    declared: u64,
    s: &[u8],
    here: Position,
) -> Result<(Templates, Position), ReadError>
    ensures { TemplatesFrom (member declared) s.now here.at result }
{
    let reading = Reading { declared, s };
    // Counts the templates beside the position that moves over them.
    let mut count: usize = 0;
    let mut starts = [0usize; 32];
    let mut p = here;
    loop {
        let d = p.command(s, Context::Templates);
        let Decoded::Moved(code, next) = d else {
            return Err(d.refusal());
        };
        if code == 0x2F {
            return Ok((Templates { count, starts }, next));
        }
        if MOST_TEMPLATES <= count {
            return Err(ReadError {
                form: Form::TooMany,
                at: p.at,
            });
        }
        count += 1;
        starts[count] = next.at;
        p = reading.read_items(Kind::Template, next, 0)?;
    }
}
