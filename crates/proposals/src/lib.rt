// The proposal that says what the entries in a work area hold: its length, and its bytes laid into a lent buffer.
#![tactic(auto)]

ghost use Rattle.std.specs.Prelude.{◌≡◌, List, true, ℕ, ◌+◌, ◌*◌, ◌/◌, ◌≤◌, ◌<◌, length};
ghost use Rattle.sets.specs.Sets.{member};
ghost use Rattle.sets.specs.Inner.Promises.{count_below};
ghost use Rattle.strings.specs.Inner.Promises.{holds_value};
ghost use Rattle.summaries.specs.Proposal.{string};
ghost use Rattle.summaries.specs.ProposalOf.{unlisted, proposal_of};
ghost use Rattle.summaries.specs.WrittenProposal.{written_proposal};
ghost use Rattle.states.specs.Inner.States.{point_words, entries_in};
ghost use Rattle.jobs.specs.Inference.{stored_at};
ghost use Rattle.graphs.specs.Inner.Graphs.{holds};
ghost use Rattle.memory.specs.Inner.Laid.{Writes};
ghost use Rattle.proposals.specs.Inner.Bytes.{prefix_bytes, item_bytes, members, firsts, seconds, limit, prefix_of, MayStand, MayBe, is_held, listed_of, place_bytes, row_bytes, sort_bytes, template_bytes, string_bytes, entry_bytes, head_bytes, entry_at, items_at, headed_at, entries_bytes, Counted, entry_most, FewBytes, Repeated, Stand};

use graphs::Graph;
use strings::Values;

// What stands before the last operand of an item: the command and up to two operands.
#[derive(Clone, Copy)]
enum Prefix {
    Bare(u8),
    One(u8, u8),
    Two(u8, u8, u8),
}

// The sorts of items of a template variable, by their commands.
#[derive(Clone, Copy)]
enum Sort {
    Roots = 0x41,
    Edges = 0x42,
    Listed = 0x43,
    Any = 0x44,
    Origins = 0x45,
    AttributeOrigins = 0x46,
}

// The commands of a string variable's items, of a head, and of the end.
const ONE_STRING: u8 = 0x47;

const ANY_STRING: u8 = 0x48;

const HEAD: u8 = 0x40;

const END: u8 = 0x4F;

const VARIABLES: usize = 8;

const ENTRIES: usize = 256;

// A number for each entry: entry 8 p + v is that of variable v at point p. An array for the most points there may be, since the project has
// no heap; how many there are stands beside it.
pub type EntryTable = [usize; ENTRIES];

// The bytes are counted before any is written, so a function that counts stands beside each that writes. They are no twins: members are
// counted in one step and written one by one, and only a buffer has an end. One walk for both would go over a trait of sinks, with laws of
// room in each contract, and be no plainer.

// A writer lays bytes into a buffer from an offset on, and hands back the next offset. Both stay parameters: a struct that holds the buffer
// as `&mut` has to promise in each contract, and in each loop's invariant, that it still holds the same one, and `Writes` is plainer.

impl Prefix {
    // How many bytes a prefix is.
    fn length(self) -> usize
        ensures { (result ≡ length (prefix_bytes self)) × (result ≤ 3) }
    {
        match self {
            Prefix::Bare(_) => 1,
            Prefix::One(_, _) => 2,
            Prefix::Two(_, _, _) => 3,
        }
    }

    // They are written.
    fn put(self, out: &mut [u8], at: usize) -> usize
        requires { at + length (prefix_bytes self) ≤ length out.old }
        ensures { Writes out.old at (prefix_bytes self) result out.new }
    {
        match self {
            Prefix::Bare(c) => memory::put(out, at, &[c]),
            Prefix::One(c, a) => memory::put(out, at, &[c, a]),
            Prefix::Two(c, a, b) => memory::put(out, at, &[c, a, b]),
        }
    }

    // The prefix is written, and the last operand behind it.
    fn put_item(self, out: &mut [u8], at: usize, k: u8) -> usize
        requires { at + length (item_bytes (prefix_bytes self) k) ≤ length out.old }
        ensures { Writes out.old at (item_bytes (prefix_bytes self) k) result out.new }
    {
        let n = self.put(out, at);
        memory::put(out, n, &[k])
    }

    // The bytes of the members of a set below a limit, behind the prefix.
    fn members_length(self, set: u64, below: u8) -> usize
        requires { below ≤ 64 }
        ensures { result ≡ length (members (prefix_bytes self) below (member set)) }
    {
        count_members(set, below) * (self.length() + 1)
    }

    // They are written, member by member.
    fn put_members(self, out: &mut [u8], at: usize, set: u64, below: u8) -> usize
        requires { (at + length (members (prefix_bytes self) below (member set)) ≤ length out.old) × (below ≤ 64) }
        ensures { Writes out.old at (members (prefix_bytes self) below (member set)) result out.new }
    {
        let mut n = at;
        let mut from = 0;
        while let Some(k) = sets::next_member(set, from) {
            if below <= k {
                return n;
            }
            n = self.put_item(out, n, k);
            from = k + 1;
        }
        n
    }
}

// How many members of a set are below a limit.
fn count_members(set: u64, below: u8) -> usize
    requires { below ≤ 64 }
    ensures { result ≡ count_below below (member set) }
{
    if below == 64 {
        return u64::count_ones(set) as usize;
    }
    u64::count_ones(set % (1 << below)) as usize
}

// A sort decides four things, of which the bytes of its items are made: a closure for each of them would be no plainer than the sort.
impl Sort {
    // How many first operands the items of a sort have.
    fn firsts(self, templates: u8) -> u8
        requires { templates < 32 }
        ensures { result ≡ firsts templates self }
    {
        match self {
            Sort::Roots => 1,
            Sort::Edges | Sort::Listed | Sort::Any => templates + 1,
            Sort::Origins | Sort::AttributeOrigins => 8,
        }
    }

    // How many second operands they have.
    fn seconds(self) -> u8
        ensures { result ≡ seconds self }
    {
        match self {
            Sort::Edges | Sort::Listed => 8,
            Sort::Roots | Sort::Any | Sort::Origins | Sort::AttributeOrigins => 1,
        }
    }

    // Below which number their members are.
    fn limit(self, templates: u8) -> u8
        requires { templates < 32 }
        ensures { result ≡ limit templates self }
    {
        match self {
            Sort::Roots | Sort::Edges | Sort::Origins | Sort::AttributeOrigins => templates + 1,
            Sort::Listed => strings::OUTSIDE,
            Sort::Any => 8,
        }
    }

    // What stands before a member.
    fn prefix(self, a: u8, b: u8) -> Prefix
        ensures { result ≡ prefix_of self a b }
    {
        match self {
            Sort::Roots => Prefix::Bare(self as u8),
            Sort::Any | Sort::Origins | Sort::AttributeOrigins => Prefix::One(self as u8, a),
            Sort::Edges | Sort::Listed => Prefix::Two(self as u8, a, b),
        }
    }
}

// The strings that are listed: none beside any string.
fn listed(values: Values) -> u64
    ensures { (k : ℕ) → member result k ≡ listed_of (holds_value values) k }
{
    match values {
        Values::Any => 0,
        Values::Named(set) => set.word,
    }
}

// Whether any string is taken, and with it those that no item lists.
fn takes_any(values: Values) -> bool
    ensures { result ≡ holds_value values unlisted }
{
    match values {
        Values::Any => true,
        Values::Named(_) => false,
    }
}

// The attribute gaps of a template that take any string.
fn any_gaps(graph: &Graph, n: u8) -> u64
    requires { n < 32 }
    ensures { (k : ℕ) → k < 8 → member result k ≡ holds graph.now (string n k unlisted) }
{
    let mut gaps: u64 = 0;
    for h in 0..8 {
        let values = graphs::strings_at(graph, n, h);
        gaps = sets::with_if(gaps, h, takes_any(values));
    }
    gaps
}

// A graph whose items are listed, and the number of the last template. The methods take a sort and operands one by one, as the loops go over
// them: a struct of them would be built for each call and taken apart in each clause.
#[derive(Clone, Copy)]
struct Listing<'a> {
    graph: &'a Graph,
    templates: u8,
    ghost few: { templates < 32 },
}

impl Listing<'_> {
    // The members of the items of a sort with these operands.
    fn members_of(&self, sort: Sort, a: u8, b: u8) -> u64
        requires { MayStand sort a b }
        ensures { (k : ℕ) → MayBe sort k → member result k ≡ is_held (holds self.now.graph.now) sort a b k }
    {
        match sort {
            Sort::Roots => graphs::roots(self.graph),
            Sort::Edges => graphs::edges(self.graph, a, b),
            Sort::Listed => listed(graphs::strings_at(self.graph, a, b)),
            Sort::Any => any_gaps(self.graph, a),
            Sort::Origins => graphs::origins(self.graph, a),
            Sort::AttributeOrigins => graphs::attribute_origins(self.graph, a),
        }
    }

    // The bytes of the items of a sort with these operands.
    fn place_length(&self, sort: Sort, a: u8, b: u8) -> usize
        requires { (a < firsts self.now.templates sort) × (b < seconds sort) }
        ensures { result ≡ length (place_bytes self.now.templates (holds self.now.graph.now) sort a b) }
    {
        let set = self.members_of(sort, a, b);
        sort.prefix(a, b)
            .members_length(set, sort.limit(self.templates))
    }

    // They are written.
    fn put_place(&self, out: &mut [u8], at: usize, sort: Sort, a: u8, b: u8) -> usize
        requires { (at + length (place_bytes self.now.templates (holds self.now.graph.now) sort a b) ≤ length out.old) × (a < firsts self.now.templates sort) × (b < seconds sort) }
        ensures { Writes out.old at (place_bytes self.now.templates (holds self.now.graph.now) sort a b) result out.new }
    {
        let set = self.members_of(sort, a, b);
        sort.prefix(a, b)
            .put_members(out, at, set, sort.limit(self.templates))
    }

    // The bytes of those with any second operand.
    fn row_length(&self, sort: Sort, a: u8) -> usize
        requires { a < firsts self.now.templates sort }
        ensures { result ≡ length (row_bytes self.now.templates (holds self.now.graph.now) sort a) }
    {
        let count = sort.seconds();
        let mut total: usize = 0;
        for b in 0..count {
            total += self.place_length(sort, a, b);
        }
        total
    }

    // They are written, second operand by second operand.
    fn put_row(&self, out: &mut [u8], at: usize, sort: Sort, a: u8) -> usize
        requires { (at + length (row_bytes self.now.templates (holds self.now.graph.now) sort a) ≤ length out.old) × (a < firsts self.now.templates sort) }
        ensures { Writes out.old at (row_bytes self.now.templates (holds self.now.graph.now) sort a) result out.new }
    {
        let count = sort.seconds();
        let mut n = at;
        for b in 0..count {
            n = self.put_place(out, n, sort, a, b);
        }
        n
    }

    // The bytes of all items of a sort.
    fn sort_length(&self, sort: Sort) -> usize
        ensures { result ≡ length (sort_bytes self.now.templates (holds self.now.graph.now) sort) }
    {
        let count = sort.firsts(self.templates);
        let mut total: usize = 0;
        for a in 0..count {
            total += self.row_length(sort, a);
        }
        total
    }

    // They are written, first operand by first operand.
    fn put_sort(&self, out: &mut [u8], at: usize, sort: Sort) -> usize
        requires { at + length (sort_bytes self.now.templates (holds self.now.graph.now) sort) ≤ length out.old }
        ensures { Writes out.old at (sort_bytes self.now.templates (holds self.now.graph.now) sort) result out.new }
    {
        let count = sort.firsts(self.templates);
        let mut n = at;
        for a in 0..count {
            n = self.put_row(out, n, sort, a);
        }
        n
    }

    // The bytes of all items of a template variable.
    #[tactic(auto, using(crate::proofs::Sorts::sorts_most))]
    fn template_length(&self) -> usize
        ensures { result ≡ length (template_bytes self.now.templates (holds self.now.graph.now)) }
    {
        self.sort_length(Sort::Roots)
            + self.sort_length(Sort::Edges)
            + self.sort_length(Sort::Listed)
            + self.sort_length(Sort::Any)
            + self.sort_length(Sort::Origins)
            + self.sort_length(Sort::AttributeOrigins)
    }

    // They are written, sort by sort.
    #[tactic(auto, using(crate::proofs::Sorts::template_length))]
    fn put_template(&self, out: &mut [u8], at: usize) -> usize
        requires { at + length (template_bytes self.now.templates (holds self.now.graph.now)) ≤ length out.old }
        ensures { Writes out.old at (template_bytes self.now.templates (holds self.now.graph.now)) result out.new }
    {
        let roots = self.put_sort(out, at, Sort::Roots);
        let edges = self.put_sort(out, roots, Sort::Edges);
        let listed = self.put_sort(out, edges, Sort::Listed);
        let any = self.put_sort(out, listed, Sort::Any);
        let origins = self.put_sort(out, any, Sort::Origins);
        self.put_sort(out, origins, Sort::AttributeOrigins)
    }
}

// The bytes of the items of a string variable.
fn strings_length(values: Values) -> usize
    ensures { result ≡ length (string_bytes (holds_value values)) }
{
    let n = Prefix::Bare(ONE_STRING).members_length(listed(values), strings::OUTSIDE);
    if takes_any(values) {
        return n + 1;
    }
    n
}

// They are written: the listed strings, then any string.
fn put_strings(out: &mut [u8], at: usize, values: Values) -> usize
    requires { at + length (string_bytes (holds_value values)) ≤ length out.old }
    ensures { Writes out.old at (string_bytes (holds_value values)) result out.new }
{
    let n = Prefix::Bare(ONE_STRING).put_members(out, at, listed(values), strings::OUTSIDE);
    if takes_any(values) {
        return memory::put(out, n, &[ANY_STRING]);
    }
    n
}

// The entries in a work area, the number of the last template, and how many points there are. The public functions take the three apart,
// and keep their contracts.
#[derive(Clone, Copy)]
struct Entries<'a> {
    work: &'a [u64],
    templates: u8,
    points: usize,
    ghost few: { templates < 32 },
    ghost few_points: { points ≤ 32 },
    ghost there: { points * point_words ≤ length work.now },
}

impl Entries<'_> {
    // The bytes of the items of a variable at a point.
    fn entry_length(&self, p: usize, v: usize) -> usize
        requires { (p < self.now.points) × (v < 8) }
        ensures { result ≡ length (entry_bytes self.now.templates (entry_at self.now.work.now p) v) }
    {
        if v < 4 {
            if states::is_blank(self.work, p, v) {
                return 0;
            }
            let graph = states::graph_at(self.work, p, v);
            let listing = Listing {
                graph: &graph,
                templates: self.templates,
            };
            return listing.template_length();
        }
        strings_length(states::values_at(self.work, p, v - 4))
    }

    // They are written.
    fn put_entry(&self, out: &mut [u8], at: usize, p: usize, v: usize) -> usize
        requires { (at + length (entry_bytes self.now.templates (entry_at self.now.work.now p) v) ≤ length out.old) × (p < self.now.points) × (v < 8) }
        ensures { Writes out.old at (entry_bytes self.now.templates (entry_at self.now.work.now p) v) result out.new }
    {
        if v < 4 {
            let graph = states::graph_at(self.work, p, v);
            let listing = Listing {
                graph: &graph,
                templates: self.templates,
            };
            return listing.put_template(out, at);
        }
        put_strings(out, at, states::values_at(self.work, p, v - 4))
    }

    // Whether a variable has the same entry as at the point before.
    fn is_repeated(&self, p: usize, v: usize) -> bool
        requires { (p < self.now.points) × (v < 8) }
        ensures { result ≡ true → Repeated self.now.work.now p v }
    {
        if p == 0 {
            return false;
        }
        let before = p - 1;
        states::same_entry(self.work, before, p, v)
    }

    // The bytes of the items of an entry, where those of the entries before it were counted.
    fn next_length(&self, i: usize, lengths: &EntryTable) -> usize
        requires { (i < self.now.points * 8) × Counted self.now.templates self.now.work.now i lengths.now }
        ensures { result ≡ length (items_at self.now.templates self.now.work.now i) }
    {
        let p = i / VARIABLES;
        let v = i % VARIABLES;
        if self.is_repeated(p, v) {
            return lengths[i - VARIABLES];
        }
        self.entry_length(p, v)
    }

    // The items of an entry are written; the table tells where those of each entry before it end. What is repeated is copied from there.
    fn put_items(
        &self,
        out: &mut [u8],
        at: usize,
        i: usize,
        size: usize,
        ends: &EntryTable,
    ) -> usize
        requires { (at + length (items_at self.now.templates self.now.work.now i) ≤ length out.old) × (i < self.now.points * 8) × (size ≡ length (items_at self.now.templates self.now.work.now i)) × Stand self.now.templates self.now.work.now i out.old at ends.now }
        ensures { Writes out.old at (items_at self.now.templates self.now.work.now i) result out.new }
    {
        let p = i / VARIABLES;
        let v = i % VARIABLES;
        if self.is_repeated(p, v) {
            let end = ends[i - VARIABLES];
            return memory::copy(out, end - size, at, size);
        }
        self.put_entry(out, at, p, v)
    }

    // An entry is written: its items under a head, or nothing.
    fn put_variable(
        &self,
        out: &mut [u8],
        at: usize,
        i: usize,
        size: usize,
        ends: &EntryTable,
    ) -> usize
        requires { (at + length (headed_at self.now.templates self.now.work.now i) ≤ length out.old) × (i < self.now.points * 8) × (size ≡ length (items_at self.now.templates self.now.work.now i)) × Stand self.now.templates self.now.work.now i out.old at ends.now }
        ensures { Writes out.old at (headed_at self.now.templates self.now.work.now i) result out.new }
    {
        if size == 0 {
            return at;
        }
        let p = i / VARIABLES;
        let v = i % VARIABLES;
        let n = memory::put(out, at, &[HEAD, p as u8, v as u8]);
        self.put_items(out, n, i, size, ends)
    }

    // The entries of all points are written, entry by entry.
    fn put_entries(&self, out: &mut [u8], at: usize, lengths: &EntryTable) -> usize
        requires { (at + length (entries_bytes self.now.templates self.now.work.now (self.now.points * 8)) ≤ length out.old) × Counted self.now.templates self.now.work.now (self.now.points * 8) lengths.now }
        ensures { Writes out.old at (entries_bytes self.now.templates self.now.work.now (self.now.points * 8)) result out.new }
    {
        let count = self.points * VARIABLES;
        let mut ends: EntryTable = [0; ENTRIES];
        let mut n = at;
        for i in 0..count {
            n = self.put_variable(out, n, i, lengths[i], &ends);
            ends[i] = n;
        }
        n
    }
}

// The bytes of the items of each entry are counted.
pub fn entry_lengths(work: &[u64], templates: usize, points: usize) -> EntryTable
    requires { (points * point_words ≤ length work.now) × (templates < 32) × (points ≤ 32) }
    ensures { Counted templates work.now (points * 8) result }
{
    let entries = Entries {
        work,
        templates: templates as u8,
        points,
    };
    let count = points * VARIABLES;
    let mut lengths: EntryTable = [0; ENTRIES];
    for i in 0..count {
        lengths[i] = entries.next_length(i, &lengths);
    }
    lengths
}

// The bytes of an entry, by those of its items: a head stands above them where there are any.
fn with_head(size: usize) -> usize
    requires { size ≤ entry_most }
    ensures { (result ≤ 3 + size) × ((p v : ℕ) (bs : List ℕ) → size ≡ length bs → result ≡ length (head_bytes p v bs)) }
{
    if size == 0 {
        return 0;
    }
    size + 3
}

// The proposal of entries that were counted: its length, told before anything is written.
pub fn proposal_length(lengths: &EntryTable, points: usize) -> usize
    requires { (points ≤ 32) × FewBytes (points * 8) lengths.now }
    ensures { (templates : ℕ) (work : List ℕ) → Counted templates work (points * 8) lengths.now → result ≡ length (written_proposal (proposal_of templates points (entries_in points work))) }
{
    let count = points * VARIABLES;
    let mut total: usize = 0;
    for i in 0..count {
        total += with_head(lengths[i]);
    }
    total + 1
}

// Its bytes, from the start of a buffer on.
pub fn put_proposal(
    out: &mut [u8],
    work: &[u64],
    templates: usize,
    points: usize,
    lengths: &EntryTable,
) -> usize
    requires { (length (written_proposal (proposal_of templates points (entries_in points work.now))) ≤ length out.old) × (points * point_words ≤ length work.now) × (templates < 32) × (points ≤ 32) × Counted templates work.now (points * 8) lengths.now }
    ensures { Writes out.old 0 (written_proposal (proposal_of templates points (entries_in points work.now))) result out.new }
{
    let entries = Entries {
        work,
        templates: templates as u8,
        points,
    };
    let n = entries.put_entries(out, 0, lengths);
    memory::put(out, n, &[END])
}

// Its bytes in a buffer from a place on: the part from there on is lent to the writers.
pub fn put_from(
    buffer: &mut [u8],
    place: usize,
    work: &[u64],
    templates: usize,
    points: usize,
    lengths: &EntryTable,
) -> usize
    requires { (place + length (written_proposal (proposal_of templates points (entries_in points work.now))) ≤ length buffer.old) × (points * point_words ≤ length work.now) × (templates < 32) × (points ≤ 32) × Counted templates work.now (points * 8) lengths.now }
    ensures { (result ≡ length (written_proposal (proposal_of templates points (entries_in points work.now)))) × (buffer.new ≡ stored_at place (written_proposal (proposal_of templates points (entries_in points work.now))) buffer.old) }
{
    put_proposal(&mut buffer[place..], work, templates, points, lengths)
}
