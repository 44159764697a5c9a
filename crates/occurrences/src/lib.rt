// In which templates each element stands; and the outline of each template.
#![tactic(auto)]

ghost use Rattle.std.specs.Prelude.{◌≡◌, ◌≤◌, ◌<◌, length};
ghost use Rattle.occurrences.specs.Inner.Occurrences.{Keeps};
ghost use Rattle.occurrences.specs.Inner.Promises.{TellsElement, TellsItems, TellsTemplates};

use commands::Position;
use pages::{ItemHere, TEXT, Templates};

// The contents and the gaps that stand among the outer ones of a list of items, and the position after what ends them.
#[derive(Clone, Copy)]
pub struct Outer {
    pub contents: u64,
    pub gaps: u64,
    pub next: Position,
}

// The contents and the gaps among the outer items of every template: two tables, since edges go by the gaps alone and unions by the
// contents alone.
#[derive(Clone, Copy)]
pub struct Outlines {
    pub contents: [u64; 32],
    pub gaps: [u64; 32],
}

// The element e of template n, whose attributes stand here, and those inside it are put into the table; the position after it. The
// table has for each element the templates in which it stands.
#[cycle(outline_element_outline_items)]
fn outline_element(s: &[u8], start: Position, e: u8, n: u8, table: &mut [u64; 64]) -> Position
    requires { (length table.old ≡ 64) × (e < 64) × (n < 64) }
    ensures forward { start.at ≤ result.at }
    ensures long { length table.new ≡ 64 }
    ensures keeps { Keeps table.old table.new }
    ensures told { TellsElement s.now start e n result table.new }
{
    let i = e as usize;
    table[i] = sets::with(table[i], n);
    let inside = pages::after_attributes(s, start);
    outline_items(s, inside, n, table).next
}

// The items from here on, of template n; their elements, at any depth, are put into the table.
#[cycle(outline_element_outline_items)]
fn outline_items(s: &[u8], start: Position, n: u8, table: &mut [u64; 64]) -> Outer
    requires { (length table.old ≡ 64) × (n < 64) }
    ensures forward { start.at ≤ result.next.at }
    ensures long { length table.new ≡ 64 }
    ensures keeps { Keeps table.old table.new }
    ensures told { TellsItems s.now start.at n result table.new }
{
    let mut here = start;
    let mut contents: u64 = 0;
    let mut gaps: u64 = 0;
    loop {
        match pages::item_here(s, here) {
            ItemHere::Text(next) => {
                contents = sets::with(contents, TEXT);
                here = next;
            }
            ItemHere::Gap(g, next) => {
                gaps = sets::with(gaps, g);
                here = next;
            }
            ItemHere::Element(e, first) => {
                contents = sets::with(contents, e);
                here = outline_element(s, first, e, n, table);
            }
            ItemHere::Blank(next) => here = next,
            ItemHere::End(next) => {
                return Outer {
                    contents,
                    gaps,
                    next,
                };
            }
        }
    }
}

// The outlines of all templates, of which template 0 is empty; their elements are put into the table.
pub fn of_templates(s: &[u8], templates: &Templates, table: &mut [u64; 64]) -> Outlines
    requires { length table.old ≡ 64 }
    ensures { TellsTemplates s.now templates.now.starts templates.now.count result table.new }
{
    let mut contents = [0u64; 32];
    let mut gaps = [0u64; 32];
    for n in 1..32 {
        if templates.count < n {
            break;
        }
        let outer = outline_items(s, Position::new(templates.starts[n]), n as u8, table);
        contents[n] = outer.contents;
        gaps[n] = outer.gaps;
    }
    Outlines { contents, gaps }
}
