// Covering (document 01, "Covering, and the language of a show"): the start (9) and every step (10).
#![tactic(auto)]

ghost use Rattle.std.specs.Prelude.{◌≡◌, List, ℕ, ◌+◌, ◌*◌, ◌<◌, get_or};
ghost use Rattle.programs.specs.Inner.Promises.{as_act};
ghost use Rattle.summaries.specs.Proposal.{Head};
ghost use Rattle.summaries.specs.ProposalReading.{variable_of};
ghost use Rattle.summaries.specs.Summaries.{Within, entries, transfer, transfer_template, transfer_string};
ghost use Rattle.summaries.specs.Covering.{WithinAt, start_environment, StepCovered};
ghost use Rattle.jobs.specs.Job.{Job};
ghost use Rattle.jobs.specs.JobVerdict.{StartHolds};
ghost use Rattle.jobs.specs.Inner.ScriptTables.{NamesAre};
ghost use Rattle.pages.specs.Inner.Gaps.{GapsTable};
ghost use Rattle.graphs.specs.Inner.Graphs.{Keeps, nothing};
ghost use Rattle.entries.specs.Inner.Passing.{Decides};
ghost use Rattle.covering.specs.Inner.Tables.{EntriesAt, Tables, StepAt};
ghost use Rattle.covering.specs.Inner.Promises.{RefusesLowest, Covers, PointCovers, StepsCover};

use commands::Position;
use graphs::Graph;
use programs::{Act, Points, Statement};
use transfers::{Made, MadeString};
use verdicts::Cover;

// The step of a point over its act to a next point.
#[derive(Clone, Copy)]
struct Step {
    act: Act,
    point: usize,
    next: usize,
}

// Where the items under the head of a template variable at a point stand, and of a string variable.
pub fn template_head(heads: &[usize; 256], p: usize, x: usize) -> Position
    ensures { p < 32 → x < 4 → result.at ≡ get_or heads.now (p * 8 + x) 0 }
{
    Position::new(heads[(p % 32) * 8 + x % 4])
}

fn string_head(heads: &[usize; 256], p: usize, y: usize) -> Position
    ensures { p < 32 → y < 4 → result.at ≡ get_or heads.now (p * 8 + (4 + y)) 0 }
{
    Position::new(heads[(p % 32) * 8 + (4 + y % 4)])
}

// A job that was read, as its covering is checked: its bytes, the gaps of its templates, its points, and the offsets of the items under
// each head.
#[derive(Clone, Copy)]
struct Compared<'a> {
    s: &'a [u8],
    gaps: &'a [u64; 32],
    points: &'a Points,
    heads: &'a [usize; 256],
}

impl Compared<'_> {
    // Whether template variable x is covered in the step of a point over an act to a next point.
    fn template_holds(&self, step: Step, x: u8, graph: &mut Graph) -> bool
        requires { Keeps graph.old nothing }
        ensures decides { (j : Job) → StepAt j self.now.s.now self.now.gaps.now self.now.heads.now step.point step.next (as_act step.act) → x < 4 → Decides result (Within (transfer_template j.script.templates (as_act step.act) (entries j.proposal step.point) x) ((entries j.proposal step.next).template x)) }
        ensures empty { Keeps graph.new nothing }
    {
        let act = step.act;
        let p = step.point;
        let there = template_head(self.heads, step.next, x as usize);
        let made = transfers::template_made(act, x);
        match made {
            Made::Value(y) => {
                entries::entry_within(
                    self.s,
                    template_head(self.heads, p, y as usize),
                    there,
                    graph,
                )
            }
            Made::Template(t) => entries::fragment_within(
                self.s,
                t,
                self.gaps[(t % 32) as usize],
                there,
                graph,
            ),
            Made::Plugged(y, g, z) => {
                let first = template_head(self.heads, p, y as usize);
                let second = template_head(self.heads, p, z as usize);
                entries::plug_within(self.s, first, g, second, there, graph)
            }
            Made::Filled(y, h, z) => {
                let from = template_head(self.heads, p, y as usize);
                let strings = entries::strings_of(self.s, string_head(self.heads, p, z as usize));
                entries::fill_within(self.s, from, h, strings, there, graph)
            }
        }
    }

    // Whether string variable y is covered in the step of a point over an act to a next point.
    fn string_holds(&self, step: Step, y: u8) -> bool
        ensures { (j : Job) (gaps : List ℕ) → StepAt j self.now.s.now gaps self.now.heads.now step.point step.next (as_act step.act) → y < 4 → Decides result (Within (transfer_string (as_act step.act) (entries j.proposal step.point) y) ((entries j.proposal step.next).string y)) }
    {
        let act = step.act;
        let there = string_head(self.heads, step.next, y as usize);
        let made = transfers::string_made(act, y);
        match made {
            MadeString::Value(z) => {
                entries::strings_entry_within(
                    self.s,
                    string_head(self.heads, step.point, z as usize),
                    there,
                )
            }
            MadeString::One(t) => {
                let one = strings::one_value(t % strings::OUTSIDE);
                strings::values_within(one, entries::strings_of(self.s, there))
            }
            MadeString::Any => {
                strings::values_within(strings::any_value(), entries::strings_of(self.s, there))
            }
        }
    }

    // Whether a variable, as `40` numbers it, is covered in the step of a point to a next point.
    fn variable_holds(&self, step: Step, v: usize, graph: &mut Graph) -> bool
        requires v_bound { v < 8 }
        requires keeps { Keeps graph.old nothing }
        ensures decides { (j : Job) → StepAt j self.now.s.now self.now.gaps.now self.now.heads.now step.point step.next (as_act step.act) → Decides result (WithinAt (variable_of v) (transfer j.script.templates (as_act step.act) (entries j.proposal step.point)) (entries j.proposal step.next)) }
        ensures empty { Keeps graph.new nothing }
    {
        if v < 4 {
            return self.template_holds(step, v as u8, graph);
        }
        self.string_holds(step, (v - 4) as u8)
    }

    // Whether a variable is covered in the step of a point to a next point, if some statement names it; no other is looked at.
    fn named_holds(&self, step: Step, v: usize, graph: &mut Graph) -> bool
        requires v_bound { v < 8 }
        requires keeps { Keeps graph.old nothing }
        ensures decides { (j : Job) → StepAt j self.now.s.now self.now.gaps.now self.now.heads.now step.point step.next (as_act step.act) → NamesAre j.script self.now.points.now.named → Decides result (StepCovered j.script.templates j.script.program (entries j.proposal) step.point (as_act step.act) step.next (variable_of v)) }
        ensures empty { Keeps graph.new nothing }
    {
        if !sets::has(self.points.named, v as u8) {
            return true;
        }
        self.variable_holds(step, v, graph)
    }

    // The step of a point to a next point, refused at the lowest variable that is not covered in it.
    fn step_uncovered(&self, step: Step, graph: &mut Graph) -> Result<(), Cover>
        requires { Keeps graph.old nothing }
        ensures lowest { (j : Job) → StepAt j self.now.s.now self.now.gaps.now self.now.heads.now step.point step.next (as_act step.act) → NamesAre j.script self.now.points.now.named → RefusesLowest (Cover.Step step.point step.next) (λ v. StepCovered j.script.templates j.script.program (entries j.proposal) step.point (as_act step.act) step.next (variable_of v)) result }
        ensures empty { Keeps graph.new nothing }
    {
        for v in 0..8 {
            if !self.named_holds(step, v, graph) {
                return Err(Cover::Step {
                    point: step.point,
                    next: step.next,
                    variable: v,
                });
            }
        }
        Ok(())
    }

    // The first step of a point that is not covered: the first next point before the second, the lowest variable.
    fn point_uncovered(&self, place: usize, p: usize, graph: &mut Graph) -> Result<(), Cover>
        requires { Keeps graph.old nothing }
        ensures covers { (j : Job) (count : ℕ) (starts : List ℕ) (points : ℕ) (places : List ℕ) → Tables j self.now.s.now count starts points places self.now.points.now.named self.now.heads.now → GapsTable self.now.gaps.now j.script.templates → p < points → place ≡ get_or places p 0 → PointCovers j.script (entries j.proposal) p result }
        ensures empty { Keeps graph.new nothing }
    {
        let statement = programs::statement_at(self.s, Position::new(place));
        let Statement::Step { act, first, second } = statement else {
            return Ok(());
        };
        let near = Step {
            act,
            point: p,
            next: first,
        };
        let far = Step {
            act,
            point: p,
            next: second,
        };
        self.step_uncovered(near, graph)?;
        if second == first {
            return Ok(());
        }
        self.step_uncovered(far, graph)
    }

    // The first step that is not covered: the lowest point, whether a run reaches it or not.
    fn steps_uncovered(&self, graph: &mut Graph) -> Result<(), Cover>
        requires { Keeps graph.old nothing }
        ensures covers { (j : Job) (count : ℕ) (starts : List ℕ) → Tables j self.now.s.now count starts self.now.points.now.count self.now.points.now.places self.now.points.now.named self.now.heads.now → GapsTable self.now.gaps.now j.script.templates → StepsCover j.script (entries j.proposal) result }
        ensures empty { Keeps graph.new nothing }
    {
        for p in 0..self.points.count {
            let place = self.points.places[p % 32];
            self.point_uncovered(place, p, graph)?;
        }
        Ok(())
    }

    // Whether the start is covered at a variable, as `40` numbers it: the empty template 0, string 0.
    fn start_holds(&self, v: usize) -> bool
        ensures { (hs : List Head) → EntriesAt self.now.s.now self.now.heads.now hs 0 → v < 8 → Decides result (WithinAt (variable_of v) start_environment (entries hs 0)) }
    {
        if v < 4 {
            return sets::has(
                entries::roots_of(self.s, template_head(self.heads, 0, v)),
                0,
            );
        }
        let values = entries::strings_of(self.s, string_head(self.heads, 0, v - 4));
        strings::values_within(strings::one_value(0), values)
    }

    // Whether the start is covered at a variable, if some statement names it; no other is looked at.
    fn named_start_holds(&self, v: usize) -> bool
        requires { v < 8 }
        ensures { (j : Job) → EntriesAt self.now.s.now self.now.heads.now j.proposal 0 → NamesAre j.script self.now.points.now.named → Decides result (StartHolds j.script (entries j.proposal) v) }
    {
        if !sets::has(self.points.named, v as u8) {
            return true;
        }
        self.start_holds(v)
    }

    // The start, refused at the lowest variable at which it is not covered.
    fn start_uncovered(&self) -> Result<(), Cover>
        ensures { (j : Job) → EntriesAt self.now.s.now self.now.heads.now j.proposal 0 → NamesAre j.script self.now.points.now.named → RefusesLowest Cover.Start (StartHolds j.script (entries j.proposal)) result }
    {
        for v in 0..8 {
            if !self.named_start_holds(v) {
                return Err(Cover::Start(v));
            }
        }
        Ok(())
    }
}

// Whether the proposal of a job that was read covers its program, and what it does not cover first: the start (9), then the steps
// (10). What is known of the job is given: the gaps of its templates, its points, and the offsets of the items under each head.
pub fn first_uncovered(
    s: &[u8],
    gaps: &[u64; 32],
    points: &Points,
    heads: &[usize; 256],
) -> Result<(), Cover>
    ensures { (j : Job) (count : ℕ) (starts : List ℕ) → Tables j s.now count starts points.now.count points.now.places points.now.named heads.now → GapsTable gaps.now j.script.templates → Covers j.script (entries j.proposal) result }
{
    let job = Compared {
        s,
        gaps,
        points,
        heads,
    };
    job.start_uncovered()?;
    let mut graph = graphs::none();
    job.steps_uncovered(&mut graph)
}
