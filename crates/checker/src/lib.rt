// The check of a job (document 01, "Verdicts", Check a job): its reading, its covering, and each show in turn.
#![tactic(auto)]

ghost use Rattle.std.specs.Prelude.{◌≡◌, ℕ};
ghost use Rattle.verdicts.specs.Printed.{numbers_of, verdict_of};
ghost use Rattle.verdicts.specs.TheVerdict.{TheVerdict};
ghost use Rattle.commands.specs.Reading.{whole};
ghost use Rattle.summaries.specs.Summaries.{entries};
ghost use Rattle.jobs.specs.Job.{Job, job};
ghost use Rattle.jobs.specs.Inner.Promises.{JobKept};
ghost use Rattle.jobs.specs.JobVerdict.{AllCovered, ScriptVerdict, JobVerdict};
ghost use Rattle.jobs.specs.Guarantee.{Guarantee};
ghost use Rattle.checker.specs.Inner.Promises.{fault_at, ReadAt, IsSame};

use graphs::Graph;
use jobs::ScriptRead;
use pages::Templates;
use programs::Points;
use shows::{TemplateTables, WrongShow};
use verdicts::{Fault, Refusal, Verdict};
use vocabularies::Tables;

// 11, 12, 14 or 15 at a point, by what is wrong in its show.
fn fault_at(p: usize, wrong: WrongShow) -> Refusal
    ensures { result ≡ fault_at p wrong }
{
    let fault = match wrong {
        WrongShow::NotRoot(template) => Fault::NotRoot { point: p, template },
        WrongShow::Element(w) => verdicts::element_fault(p, w.template, w.at, w.breach),
    };
    Refusal::Page(fault)
}

// Whether a graph is the one that was found right.
fn is_right(right: &Option<Graph>, graph: &Graph) -> bool
    ensures { IsSame right.now graph.now result }
{
    let Some(last) = right else {
        return false;
    };
    graphs::same(last, graph)
}

// Each show in turn, the lowest point first. A show of the graph that was found right last is right as well.
fn first_fault(
    s: &[u8],
    vocabulary: &Tables,
    tables: &TemplateTables,
    templates: &Templates,
    points: &Points,
    heads: &[usize; 256],
) -> Result<(), Refusal>
    ensures { (j : Job) → ReadAt s.now vocabulary.now tables.now templates.now.count templates.now.starts points.now.count points.now.places heads.now j → AllCovered j.script (entries j.proposal) → ScriptVerdict j.script (entries j.proposal) (numbers_of (verdict_of result)) }
{
    let mut right: Option<Graph> = None;
    for p in 0..points.count {
        let Some(source) = shows::showing_at(s, points.places[p % 32]) else {
            continue;
        };
        let mut graph = graphs::none();
        shows::shown_graph(s, heads, &tables.gaps, p, source, &mut graph);
        if is_right(&right, &graph) {
            continue;
        }
        shows::decide(s, vocabulary, tables, templates, &graph).map_err(|wrong| fault_at(
            p, wrong,
        ))?;
        right = Some(graph);
    }
    Ok(())
}

// The verdict of a job that was read: 9 and 10, then the shows.
fn check_read(s: &[u8], heads: &[usize; 256], read: &ScriptRead) -> Result<(), Refusal>
    ensures { (j : Job) (end : ℕ) → job s.now ≡ whole j end → JobKept s.now heads.now j read.now → ScriptVerdict j.script (entries j.proposal) (numbers_of (verdict_of result)) }
{
    let gaps = pages::gaps_of(s, &read.templates);
    covering::first_uncovered(s, &gaps, &read.points, heads).map_err(Refusal::Cover)?;
    let tables = shows::tables_of(s, gaps, &read.templates);
    first_fault(
        s,
        &read.tables,
        &tables,
        &read.templates,
        &read.points,
        heads,
    )
}

// The verdict of a job: 1 to 8 where it cannot be read. What was read is lent on; through `map_err` and `?` it would be copied.
fn check_job(job: &[u8]) -> Result<(), Refusal>
    ensures { JobVerdict job.now (numbers_of (verdict_of result)) }
{
    let mut heads = [0usize; 256];
    match jobs::read_job(job, &mut heads) {
        Ok((read, _)) => check_read(job, &heads, &read),
        Err(e) => Err(verdicts::unreadable(e.form, e.at, 0)),
    }
}

// The verdict of a job. Acceptance means that every run of it, over any list of choices, shows only right pages, whatever its
// proposal says. The bytes are lent as `&`: `untouched` holds by their type.
pub fn check(job: &[u8]) -> Verdict
    ensures verdict { TheVerdict (JobVerdict job.now) (numbers_of result) }
    ensures untouched { job.now ≡ job.now }
    ensures shows_only_right_pages { Guarantee job.now (numbers_of result) }
{
    verdicts::verdict_of(check_job(job))
}
