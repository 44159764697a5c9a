// The judge of one page under a vocabulary (document 01, "Verdicts", Judge a page).
#![tactic(auto)]

ghost use Rattle.std.specs.Prelude.{◌≡◌, cond, eqb};
ghost use Rattle.verdicts.specs.Printed.{numbers_of, verdict_of};
ghost use Rattle.verdicts.specs.TheVerdict.{TheVerdict};
ghost use Rattle.commands.specs.Commands.{byte};
ghost use Rattle.pages.specs.PageVerdict.{PageVerdict};
ghost use Rattle.judging.specs.Inner.Judgement.{wrong_verdict, page_verdict};
ghost use Rattle.judge.specs.Inner.Answers.{not_root, AfterBlank, JudgesRead, VocabularyReads, PageReads};

use commands::{Position, ReadError};
use judging::WrongElement;
use pages::ItemHere;
use verdicts::{Fault, Refusal, Verdict};
use vocabularies::Tables;

fn not_root() -> Refusal
    ensures { result ≡ not_root }
{
    let fault = Fault::NotRoot {
        point: 0,
        template: 0,
    };
    Refusal::Page(fault)
}

// 12, 14 or 15 at the first wrong element, by what it breaks; no refusal where there is none.
fn wrong_element(wrong: Option<WrongElement>) -> Result<(), Refusal>
    ensures { verdict_of result ≡ wrong_verdict wrong }
{
    let Some(element) = wrong else {
        return Ok(());
    };
    let fault = verdicts::element_fault(0, 0, element.at, element.breach);
    Err(Refusal::Page(fault))
}

// The position after the blank text here, outside all elements.
fn after_blank(page: &[u8], here: Position) -> Position
    ensures { AfterBlank page.now here.at result }
{
    let mut p = here;
    loop {
        let item = pages::item_here(page, p);
        let ItemHere::Blank(next) = item else {
            return p;
        };
        p = next;
    }
}

// 11, unless the page ends here.
fn page_end(page: &[u8], here: Position) -> Result<(), Refusal>
    ensures { verdict_of result ≡ cond (eqb (byte page.now here.at) 0x27) Verdict.Accepted (Verdict.Refused not_root) }
{
    let Some(_) = here.past(page, 0x27) else {
        return Err(not_root());
    };
    Ok(())
}

// 11, unless the page is exactly one element, the root, and blank text; then 12, 14 or 15.
fn judge_read(vocabulary: &[u8], tables: Tables, page: &[u8]) -> Result<(), Refusal>
    ensures { JudgesRead vocabulary.now page.now tables (verdict_of result) }
{
    let start = after_blank(page, Position::new(0));
    let first = pages::item_here(page, start);
    let ItemHere::Element(e, _) = first else {
        return Err(not_root());
    };
    if e != tables.root {
        return Err(not_root());
    }
    let mut shapes = judging::no_shapes(vocabulary);
    let root = judging::judge_item(vocabulary, &tables.rules, page, start, &mut shapes);
    let last = after_blank(page, root.next);
    page_end(page, last)?;
    wrong_element(root.wrong)
}

// The vocabulary of a slice: 1 to 7 where it cannot be read.
fn read_vocabulary(vocabulary: &[u8]) -> Result<(Tables, Position), ReadError>
    ensures { VocabularyReads vocabulary.now result }
{
    jobs::not_too_many(vocabulary)?;
    let (tables, end) = vocabularies::read_vocabulary(vocabulary)?;
    jobs::ended(vocabulary, end)?;
    Ok((tables, end))
}

// 1 to 8 where a slice is no page whose elements have rules.
fn read_page(declared: u64, page: &[u8]) -> Result<Position, ReadError>
    ensures { PageReads declared page.now result }
{
    jobs::not_too_many(page)?;
    let end = pages::read_page(declared, page)?;
    jobs::ended(page, end)?;
    Ok(end)
}

// 1 to 8, the vocabulary before the page; then the judgement.
fn judge_slices(vocabulary: &[u8], page: &[u8]) -> Result<(), Refusal>
    ensures { verdict_of result ≡ page_verdict vocabulary.now page.now }
{
    let (tables, _) = read_vocabulary(vocabulary).map_err(|e| verdicts::unreadable(
        e.form, e.at, 0,
    ))?;
    read_page(tables.declared, page).map_err(|e| verdicts::unreadable(e.form, e.at, 1))?;
    judge_read(vocabulary, tables, page)
}

// The verdict of a page under a vocabulary. Both slices are lent as `&`: `untouched` holds by their type.
pub fn judge(vocabulary: &[u8], page: &[u8]) -> Verdict
    ensures verdict { TheVerdict (PageVerdict vocabulary.now page.now) (numbers_of result) }
    ensures untouched { (vocabulary.now ≡ vocabulary.now) × (page.now ≡ page.now) }
{
    verdicts::verdict_of(judge_slices(vocabulary, page))
}
