// The least entries that cover a script (document 02, F-1), worked out in a work area by a worklist.
#![tactic(auto)]

ghost use Rattle.std.specs.Prelude.{List, ℕ, ◌≤◌, ◌<◌, ltb, cond, length, get_or, ◌≡◌};
ghost use Rattle.jobs.specs.Job.{Script};
ghost use Rattle.jobs.specs.LeastEntries.{Least};
ghost use Rattle.jobs.specs.Inner.ScriptTables.{ScriptTables};
ghost use Rattle.strings.specs.Inner.Promises.{holds_value};
ghost use Rattle.pages.specs.Items.{Items};
ghost use Rattle.pages.specs.Inner.Gaps.{GapsAre, GapsTable};
ghost use Rattle.summaries.specs.Summaries.{fragment, plug_summary, plug_string_summary};
ghost use Rattle.transfers.specs.Inner.Ways.{summary_made, strings_made, MadeFits, StringMadeFits, MadeThere, act_sources, among, meets};
ghost use Rattle.graphs.specs.Inner.Graphs.{Keeps};
ghost use Rattle.states.specs.Inner.States.{entries_in};
ghost use Rattle.states.specs.Inner.Promises.{HasPoint};
ghost use Rattle.programs.specs.Program.{template_variable, string_variable};
ghost use Rattle.programs.specs.Inner.Promises.{as_act};
ghost use Rattle.solver.specs.Inner.Work.{VariableFlows, NeededFlows, Flowed, StepTaken, HasPoints, Settles, turned, Visited, all_variables, most_points, NoneWaiting, VariableStarts, NamedStarts, Started, ZeroPoints};
ghost use Rattle.summaries.specs.ProposalReading.{variable_of};

use commands::Position;
use graphs::Graph;
use programs::{Act, Points, Statement};
use strings::Values;
use transfers::{Made, MadeString};

// The points that a script can have.
const MOST_POINTS: usize = 32;
// The set of all variables, as `40` numbers them.
const ALL_VARIABLES: u64 = 255;

// A template that is just loaded.
fn template_graph(t: u8, gaps: u64) -> Graph
    ensures { (φ : Items) → GapsAre gaps φ → t < 32 → Keeps result (fragment t φ) }
{
    let mut graph = graphs::none();
    entries::add_template(&mut graph, t, gaps);
    graph
}

// The entry of template variable x at a point, with that of y in place of a gap.
fn plugged_graph(work: &[u64], p: usize, x: usize, g: u8, y: usize) -> Graph
    requires { HasPoint work.now p × (x < 4) × (y < 4) }
    ensures { (points : ℕ) → p < points → Keeps result (plug_summary g ((entries_in points work.now p).template x) ((entries_in points work.now p).template y)) }
{
    let mut first = states::graph_at(work, p, x);
    let mut second = states::graph_at(work, p, y);
    entries::plug(&mut first, g, &mut second);
    first
}

// The entry of template variable x at a point, with the strings of string variable y at an attribute gap.
fn filled_graph(work: &[u64], p: usize, x: usize, h: u8, y: usize) -> Graph
    requires { HasPoint work.now p × (x < 4) × (y < 4) }
    ensures { (points : ℕ) → p < points → Keeps result (plug_string_summary h ((entries_in points work.now p).template x) ((entries_in points work.now p).string y)) }
{
    let mut graph = states::graph_at(work, p, x);
    let values = states::values_at(work, p, y);
    entries::pass(&mut graph, entries::filling(h, values));
    graph
}

// What is made of a template variable, from the entries of a point.
fn made_graph(work: &[u64], gaps: &[u64; 32], way: Made, p: usize) -> Graph
    requires { HasPoint work.now p }
    ensures { (φs : List Items) (points : ℕ) → p < points → GapsTable gaps.now φs → MadeFits way → MadeThere (length φs) way → Keeps result (summary_made φs (entries_in points work.now p) way) }
{
    match way {
        Made::Value(x) => states::graph_at(work, p, (x % 4) as usize),
        Made::Template(t) => template_graph(t, gaps[(t % 32) as usize]),
        Made::Plugged(x, g, y) => { plugged_graph(work, p, (x % 4) as usize, g, (y % 4) as usize) }
        Made::Filled(x, h, y) => { filled_graph(work, p, (x % 4) as usize, h, (y % 4) as usize) }
    }
}

// What is made of a string variable, from the entries of a point.
fn made_values(work: &[u64], way: MadeString, p: usize) -> Values
    requires { HasPoint work.now p }
    ensures { (points : ℕ) → p < points → StringMadeFits way → (t : ℕ) → holds_value result t ≡ strings_made (entries_in points work.now p) way t }
{
    match way {
        MadeString::Value(y) => states::values_at(work, p, (y % 4) as usize),
        MadeString::One(s) => strings::one_value(s % strings::OUTSIDE),
        MadeString::Any => strings::any_value(),
    }
}

// Whether the act makes a variable, as `40` numbers it, from a fresh one: one whose entry has changed since the step was last taken.
fn made_from(act: Act, v: usize, fresh: u64) -> bool
    requires { v < 8 }
    ensures { result ≡ meets (among fresh) (act_sources (as_act act) (variable_of v)) }
{
    if v < 4 {
        let x = v as u8;
        return transfers::made_from(transfers::template_made(act, x), x, fresh);
    }
    let y = (v - 4) as u8;
    transfers::string_made_from(transfers::string_made(act, y), y, fresh)
}

// The point that a sweep visits at a turn.
fn point_of_turn(upwards: bool, turn: usize) -> usize
    requires { turn < 32 }
    ensures { result ≡ turned upwards turn }
{
    if upwards {
        return turn;
    }
    MOST_POINTS - 1 - turn
}

// The step of a point over its act to a next point, with the set of the variables that are fresh at the point: those whose entries
// have changed since the step was last taken.
#[derive(Clone, Copy)]
struct Step {
    act: Act,
    point: usize,
    next: usize,
    fresh: u64,
}

// A script that was read, as it is solved: its bytes, the gaps of its templates, and its points.
#[derive(Clone, Copy)]
struct Solved<'a> {
    s: &'a [u8],
    gaps: &'a [u64; 32],
    points: &'a Points,
}

impl Solved<'_> {
    // Template variable x gets at the next point what the act makes of it.
    fn flow_template(&self, work: &mut [u64], step: Step, x: u8) -> bool
        requires { HasPoint work.old step.point × HasPoint work.old step.next × (x < 4) }
        ensures { VariableFlows work.old self.now.gaps.now (as_act step.act) step.point step.next (template_variable x) work.new result }
    {
        let way = transfers::template_made(step.act, x);
        let Made::Value(z) = way else {
            let made = made_graph(work, self.gaps, way, step.point);
            return states::join_graph(work, step.next, x as usize, &made);
        };
        states::join_entry(work, step.next, x as usize, step.point, (z % 4) as usize)
    }

    // String variable y gets at the next point what the act makes of it.
    fn flow_string(&self, work: &mut [u64], step: Step, y: u8) -> bool
        requires { HasPoint work.old step.point × HasPoint work.old step.next × (y < 4) }
        ensures { VariableFlows work.old self.now.gaps.now (as_act step.act) step.point step.next (string_variable y) work.new result }
    {
        let made = made_values(work, transfers::string_made(step.act, y), step.point);
        states::join_values(work, step.next, y as usize, made)
    }

    // A variable, as `40` numbers it, gets at the next point what the act makes of it.
    fn flow_variable(&self, work: &mut [u64], step: Step, v: usize) -> bool
        requires { HasPoint work.old step.point × HasPoint work.old step.next × (v < 8) }
        ensures { VariableFlows work.old self.now.gaps.now (as_act step.act) step.point step.next (variable_of v) work.new result }
    {
        if v < 4 {
            return self.flow_template(work, step, v as u8);
        }
        self.flow_string(work, step, (v - 4) as u8)
    }

    // The variable flows if some statement names it and the act makes it from a fresh one; no other is looked at.
    fn flow_needed(&self, work: &mut [u64], step: Step, v: usize) -> bool
        requires { HasPoint work.old step.point × HasPoint work.old step.next × (v < 8) }
        ensures { NeededFlows work.old self.now.gaps.now self.now.points.now.named step.fresh (as_act step.act) step.point step.next v work.new result }
    {
        let needed = sets::has(self.points.named, v as u8) & made_from(step.act, v, step.fresh);
        if !needed {
            return false;
        }
        self.flow_variable(work, step, v)
    }

    // The step is taken, at all variables. The answer is the set of those whose entries have changed.
    fn flow(&self, work: &mut [u64], step: Step) -> u64
        requires { HasPoint work.old step.point × HasPoint work.old step.next }
        ensures { Flowed 8 work.old self.now.gaps.now self.now.points.now.named step.fresh (as_act step.act) step.point step.next work.new result }
    {
        let mut changed: u64 = 0;
        for v in 0..8 {
            let rises = self.flow_needed(work, step, v);
            changed = sets::with_if(changed, v as u8, rises);
        }
        changed
    }

    // The step is taken, and what has changed waits at the next point.
    fn take_step(&self, work: &mut [u64], step: Step, waiting: &mut [u64; 32])
        requires { HasPoint work.old step.point × HasPoint work.old step.next × (length waiting.old ≡ 32) × (step.next < 32) }
        ensures { StepTaken work.old self.now.gaps.now self.now.points.now.named step.fresh (as_act step.act) step.point step.next waiting.old work.new waiting.new }
    {
        let changed = self.flow(work, step);
        if changed == 0 {
            return;
        }
        waiting[step.next] = sets::union(waiting[step.next], changed);
    }

    // The steps of a point are taken. At a point those variables wait whose entries have changed since.
    fn settle_point(&self, work: &mut [u64], p: usize, waiting: &mut [u64; 32])
        requires { HasPoints work.old × (length waiting.old ≡ 32) × (p < 32) }
        ensures { Settles self.now.s.now work.old self.now.gaps.now self.now.points.now.named (get_or self.now.points.now.places p 0) p waiting.old work.new waiting.new }
    {
        let fresh = waiting[p];
        waiting[p] = 0;
        let statement = programs::statement_at(self.s, Position::new(self.points.places[p]));
        let Statement::Step { act, first, second } = statement else {
            return;
        };
        let near = first % MOST_POINTS;
        let far = second % MOST_POINTS;
        let step = Step {
            act,
            point: p,
            next: near,
            fresh,
        };
        self.take_step(work, step, waiting);
        if far == near {
            return;
        }
        self.take_step(work, Step { next: far, ..step }, waiting);
    }

    // The steps of a point are taken, if some variable waits there.
    fn visit_point(&self, work: &mut [u64], p: usize, waiting: &mut [u64; 32])
        requires { HasPoints work.old × (length waiting.old ≡ 32) × (p < 32) }
        ensures { Visited (λ q. q ≡ p) self.now.s.now self.now.gaps.now self.now.points.now.places self.now.points.now.named work.old waiting.old work.new waiting.new }
    {
        if waiting[p] == 0 {
            return;
        }
        self.settle_point(work, p, waiting);
    }

    // All points are visited, one after the other, upwards or downwards.
    fn sweep(&self, work: &mut [u64], upwards: bool, waiting: &mut [u64; 32])
        requires { HasPoints work.old × (length waiting.old ≡ 32) }
        ensures { Visited (λ q. q < most_points) self.now.s.now self.now.gaps.now self.now.points.now.places self.now.points.now.named work.old waiting.old work.new waiting.new }
    {
        for turn in 0..MOST_POINTS {
            let p = point_of_turn(upwards, turn);
            self.visit_point(work, p, waiting);
        }
    }
}

// The start of a variable, as `40` numbers it, at point 0: the empty template, string 0.
fn start_variable(work: &mut [u64], v: usize)
    requires { HasPoints work.old × (v < 8) }
    ensures { VariableStarts v work.old work.new }
{
    if v < 4 {
        let empty = template_graph(0, 0);
        states::join_graph(work, 0, v, &empty);
        return;
    }
    states::join_values(work, 0, v - 4, strings::one_value(0));
}

// The same, if some statement names the variable; no other is looked at.
fn start_named(work: &mut [u64], names: u64, v: usize)
    requires { HasPoints work.old × (v < 8) }
    ensures { NamedStarts names v work.old work.new }
{
    if !sets::has(names, v as u8) {
        return;
    }
    start_variable(work, v);
}

// The start is put at point 0.
fn start(work: &mut [u64], names: u64)
    requires { HasPoints work.old }
    ensures { Started 8 names work.old work.new }
{
    for v in 0..8 {
        start_named(work, names, v);
    }
}

// At each point of a script with this many of them, all variables wait.
fn all_waiting(points: usize) -> [u64; 32]
    ensures { points ≤ 32 → (k : ℕ) → get_or result k 0 ≡ cond (ltb k points) all_variables 0 }
{
    let mut waiting = [0; 32];
    waiting[..points.min(MOST_POINTS)].fill(ALL_VARIABLES);
    waiting
}

// Whether no variable waits at any point.
fn none_waits(waiting: &[u64; 32]) -> bool
    ensures { NoneWaiting waiting.now result }
{
    waiting.iter().all(|&variables| variables == 0)
}

// The least entries that cover a script that was read, in a work area whose words of points are zero.
// Sweeps upwards and downwards in turn follow the steps of a program, whichever way most of them go.
pub fn solve(s: &[u8], gaps: &[u64; 32], points: &Points, work: &mut [u64])
    requires { HasPoints work.old × ZeroPoints points.now.count work.old }
    ensures { (π : Script) (count : ℕ) (starts : List ℕ) → ScriptTables π s.now count starts points.now.count points.now.places points.now.named → GapsTable gaps.now π.templates → Least π (entries_in points.now.count work.new) }
{
    start(work, points.named);
    let mut waiting = all_waiting(points.count);
    let script = Solved { s, gaps, points };
    let mut upwards = true;
    while !none_waits(&waiting) {
        script.sweep(work, upwards, &mut waiting);
        upwards = !upwards;
    }
}
