// The engine: region.rs's add_candidate, initial_candidates and covering_internal over lent memory. It follows the defined run of the crate run: each function's
// contract says which part of the definition it does (specs/Engine).
#![tactic(auto)]

ghost use Rattle.std.specs.Prelude.{◌≡◌, ℕ, ◌+◌, ◌*◌, ◌^◌, ◌<◌, ◌≤◌, List, length, take};
ghost use Rattle.std.specs.Prelude.Result.{Ok, Err};
ghost use Rattle.std.specs.Int.Count.{ones};
ghost use Rattle.cellid.specs.CellId.{leaves_of};
ghost use Rattle.order.specs.Order.{All};
ghost use Rattle.cellunion.specs.Memory.{laid};
ghost use Rattle.records.specs.declared.Rec.{Rec};
ghost use Rattle.region.specs.Region.{area_of};
ghost use Rattle.run.specs.Run.{queue_most, raw_most, Task, State, in_edition, going, keep, enqueue, by_edition, add, add_all, step_with, after, level_mod, full, queue_words, memory_words};
ghost use Rattle.run.specs.Ground.{Fit, ChildOk};
ghost use Rattle.run.specs.Sixes.{places_most};
ghost use Rattle.candidate.specs.Candidate.{task_of, Asks};
ghost use Rattle.records.specs.Records.{from_r};
ghost use Rattle.queue.specs.declared.Engine.{Engine};
ghost use Rattle.queue.specs.Queue.{InQueue};
ghost use Rattle.coverer.specs.Coverer.{cleared, course_of, outcome_of, engine_answer, engine_memory};
ghost use Rattle.coverer.specs.Watch.{seen_of, seen_over};
ghost use Rattle.coverer.specs.Engine.{words_at, past, listed, is_in, child_if, children_from, leaves_in, brood_of, aside_of, grown, rec_of, AsideUpTo, Taken, Does, Holds, Comes, task, ran_of, stage_after, hand_on, start_one, Reached, Live};

use candidate::{Asking, Candidate};
use queue::Engine;
use records::Rec;
use refusal::Refusal;
use region::Region;
use run::{MEMORY_WORDS, QUEUE_MOST, QUEUE_WORDS, RAW_MOST, Request};
use totals::Totals;

// How far a run is while the cells of one start cell are worked on: ids kept, records queued, leaves set aside under that start cell, steps taken.
#[derive(Clone, Copy)]
struct Counts {
    kept: usize,
    queued: usize,
    aside: u64,
    steps: u32,
}

// How far a run is: ids kept, records queued, steps taken, leaves set aside under each start cell.
#[derive(Clone, Copy)]
struct Tally {
    kept: usize,
    queued: usize,
    steps: u32,
    aside: Totals,
}

// What a run works for: what is asked of it, and the engine that keeps the queue.
#[derive(Clone, Copy)]
struct Job<'a> {
    asking: Asking<'a>,
    engine: Engine,
}

// The cells under a taken candidate, which grew from the start cell at the place `from`: place j of the sets is the cell base + (2j + 1) unit.
#[derive(Clone, Copy)]
struct Brood {
    from: u64,
    base: u64,
    unit: u64,
    places: u64,
    present: u64,
    terminal: u64,
}

// The engine's answer: how many ids are kept, the steps taken and the leaves set aside under each start cell. The kept ids stand in the memory.
#[derive(Clone, Copy)]
pub struct Ran {
    pub count: usize,
    pub steps: u32,
    pub aside: Totals,
}

// What was seen of a run: how many cells are kept and queued, the steps taken and the leaves set aside under each start cell. Of the shape of a `Tally`, which is in
// motion.
#[derive(Clone, Copy)]
pub struct Seen {
    pub kept: usize,
    pub queued: usize,
    pub steps: u32,
    pub aside: Totals,
}

// Keeps a cell: refused with 8 where the raw list is full.
fn keep(m: &mut [u64; MEMORY_WORDS], t: Counts, id: u64) -> Result<Counts, Refusal>
    ensures does { (e : Engine) (T : Task) (i : ℕ) → Does e T i (keep (grown i id)) m.old t m.new result }
    ensures aside_up_to { AsideUpTo t.aside result }
{
    if t.kept < RAW_MOST {
        let at = QUEUE_WORDS + t.kept;
        m[at] = id;
        Ok(Counts {
            kept: t.kept + 1,
            ..t
        })
    } else {
        Err(Refusal::RawFull)
    }
}

// Queues a record: refused with 7 where the queue is full.
fn enqueue(m: &mut [u64; MEMORY_WORDS], t: Counts, e: Engine, r: Rec) -> Result<Counts, Refusal>
    ensures does { (T : Task) (i : ℕ) → 0 < level_mod T.asked → i < places_most → r ≡ rec_of T (grown i r.id) → Does e T i (enqueue (by_edition T) (grown i r.id)) m.old t m.new result }
    ensures aside_up_to { AsideUpTo t.aside result }
{
    if t.queued < QUEUE_MOST {
        e.add(m, t.queued, r);
        Ok(Counts {
            queued: t.queued + 1,
            ..t
        })
    } else {
        Err(Refusal::QueueFull)
    }
}

// Leaves are set aside in outer runs only.
#[tactic(auto, unfolding(crate::specs::Engine::aside_of))]
fn set_aside(q: Request, t: Counts, leaves: u64) -> Counts
    requires { t.aside + leaves < 2 ^ 64 }
    ensures { result ≡ aside_of q.inner t leaves }
{
    if q.inner {
        t
    } else {
        Counts {
            aside: t.aside + leaves,
            ..t
        }
    }
}

// The number of a full set of children, 4^level_mod.
fn full_of(q: Request) -> u64
    requires { level_mod q ≤ 3 }
    ensures { (result ≡ full q) × (result ≤ 64) }
{
    1 << (2 * q.coverer.level_mod)
}

// Whether the place j is in a set.
fn is_in(set: u64, j: u64) -> bool
    requires { j < 64 }
    ensures { result ≡ is_in set j }
{
    (set >> j) & 1 == 1
}

// The cells under a record, n levels down.
fn cells_under(r: Rec, n: u64) -> Brood
    requires id_nonzero { 0 < r.id }
    requires n_bound { n ≤ 3 }
    ensures { result ≡ brood_of n r }
{
    let low = cellid::lsb(r.id);
    let width = 2 * n;
    Brood {
        from: r.from(),
        base: r.id - low,
        unit: low >> width,
        places: 1 << width,
        present: r.present,
        terminal: r.terminal,
    }
}

// The run after the turn of the start cell at the place `from`: its total is what the turn says, the others are as before.
#[tactic(auto, unfolding(crate::specs::Engine::stage_after))]
fn end_turn(turn: Result<Counts, Refusal>, before: Totals, from: u64) -> Result<Tally, Refusal>
    requires { from < places_most }
    ensures { result ≡ stage_after turn before from }
{
    let t = turn?;
    Ok(Tally {
        kept: t.kept,
        queued: t.queued,
        steps: t.steps,
        aside: before.with(from, t.aside),
    })
}

impl<'a> Job<'a> {
    // Adds a candidate that grew from the start cell at the place `from`: a terminal is kept; any other is expanded, and then set aside, kept in the place of its
    // children, or queued.
    fn add_candidate(
        self,
        m: &mut [u64; MEMORY_WORDS],
        t: Counts,
        from: u64,
        id: u64,
        terminal: bool,
    ) -> Result<Counts, Refusal>
        requires from_lt_places_most { from < places_most }
        requires child_ok { ChildOk (task self) (record { id = id; ends = terminal }) }
        requires aside_fits { t.aside + leaves_of id < 2 ^ 64 }
        ensures does { Does self.entry.engine (task self.entry) from (add (in_edition (task self.entry)) (grown from id) terminal) m.old t m.new result }
        ensures aside_up_to { AsideUpTo (t.aside + leaves_of id) result }
    {
        if terminal {
            return keep(m, t, id);
        }
        let f = self.asking.expand(id);
        if f.present == 0 {
            return Ok(set_aside(self.asking.request, t, cellid::lsb(id)));
        }
        let full = full_of(self.asking.request);
        if decide::lifts(self.asking.request, full, id, f.terminal) {
            return keep(m, t, id);
        }
        let weight = decide::weight_of(self.asking.request, full);
        let r = records::record_of(weight, from, id, f.present, f.terminal);
        enqueue(m, t, self.engine, r)
    }

    // Adds the child at the place j, if there is one; in an inner run only while the results are below max_cells.
    fn add_child(
        self,
        m: &mut [u64; MEMORY_WORDS],
        t: Counts,
        b: Brood,
        j: u64,
    ) -> Result<Counts, Refusal>
        requires j_bound { (j < 64) × (b.from < places_most) }
        requires all { All (ChildOk (task self)) (child_if b j) }
        requires aside_fits { t.aside + leaves_in (child_if b j) < 2 ^ 64 }
        ensures does { Does self.entry.engine (task self.entry) b.from (add_all (in_edition (task self.entry)) b.from (child_if b j)) m.old t m.new result }
        ensures aside_up_to { AsideUpTo (t.aside + leaves_in (child_if b j)) result }
    {
        if is_in(b.present, j) {
            if decide::is_full(self.asking.request, t.kept) {
                Ok(t)
            } else {
                let ends = is_in(b.terminal, j);
                self.add_candidate(m, t, b.from, b.base + (2 * j + 1) * b.unit, ends)
            }
        } else {
            Ok(t)
        }
    }

    // Adds the children of a brood, in order.
    fn add_children(
        self,
        m: &mut [u64; MEMORY_WORDS],
        s: Counts,
        b: Brood,
    ) -> Result<Counts, Refusal>
        requires places_bound { (b.places ≤ 64) × (b.from < places_most) }
        requires all { All (ChildOk (task self)) (children_from b 0) }
        requires aside_fits { s.aside + leaves_in (children_from b 0) < 2 ^ 64 }
        ensures { Does self.entry.engine (task self.entry) b.from (add_all (in_edition (task self.entry)) b.from (children_from b 0)) m.old s m.new result }
    {
        let mut t = s;
        for j in 0..b.places {
            t = self.add_child(m, t, b, j)?;
        }
        Ok(t)
    }

    // Hands a taken candidate on to its children. What failed in its expansion is set aside: the places without a child, each as many leaves as a child has.
    fn hand_on(
        self,
        m: &mut [u64; MEMORY_WORDS],
        t: Counts,
        r: Rec,
        children: u64,
    ) -> Result<Counts, Refusal>
        requires taken { Taken (task self) r }
        requires children_value { children ≡ ones r.present }
        requires aside_fits { t.aside + leaves_of r.id < 2 ^ 64 }
        ensures { Does self.entry.engine (task self.entry) (from_r r) (hand_on (task self.entry) (grown (from_r r) r.id)) m.old t m.new result }
    {
        let b = cells_under(r, decide::levels_under(self.asking.request, r.id));
        let failed = (b.places - children) * b.unit;
        self.add_children(m, set_aside(self.asking.request, t, failed), b)
    }

    // What is done with a taken record.
    fn use_taken(self, m: &mut [u64; MEMORY_WORDS], t: Counts, r: Rec) -> Result<Counts, Refusal>
        requires kept_le_raw_most { (t.kept ≤ raw_most) × (t.queued ≤ queue_most) }
        requires taken { Taken (task self) r }
        requires aside_fits { t.aside + leaves_of r.id < 2 ^ 64 }
        ensures { Does self.entry.engine (task self.entry) (from_r r) (step_with (in_edition (task self.entry)) (grown (from_r r) r.id)) m.old t m.new result }
    {
        if decide::is_full(self.asking.request, t.kept) {
            return Ok(Counts { queued: 0, ..t });
        }
        let children = records::count(r.present);
        if decide::is_handed_on(self.asking.request, t.kept, t.queued, r.id, children) {
            self.hand_on(m, t, r, children)
        } else {
            keep(m, t, r.id)
        }
    }

    // One step: takes the least of the queue.
    fn step(self, m: &mut [u64; MEMORY_WORDS], t: Tally) -> Result<Tally, Refusal>
        requires live { Live self.engine (task self) m.old t }
        requires queued_nonzero { (0 < t.queued) × (t.steps + 1 < 2 ^ 32) }
        ensures { (l : List ℕ) → Reached self.entry.engine (task self.entry) l m.old t → Comes self.entry.engine (task self.entry) (after (in_edition (task self.entry)) l (t.steps + 1)) m.old m.new result }
    {
        let n = t.queued - 1;
        let r = self.engine.take(m, n);
        let from = r.from();
        let before = t.aside;
        let turn = self.use_taken(
            m,
            Counts {
                kept: t.kept,
                queued: n,
                aside: before.get(from),
                steps: t.steps + 1,
            },
            r,
        );
        end_turn(turn, before, from)
    }

    // The start cell at the place `from`: added if it is a candidate. One that fails is set aside.
    fn start(
        self,
        m: &mut [u64; MEMORY_WORDS],
        t: Counts,
        from: u64,
        id: u64,
    ) -> Result<Counts, Refusal>
        requires from_lt_places_most { from < places_most }
        requires fit { Fit self.asking.request id }
        requires aside_fits { t.aside + leaves_of id < 2 ^ 64 }
        ensures { Does self.entry.engine (task self.entry) from (start_one (task self.entry) (grown from id)) m.old t m.new result }
    {
        let c = self.asking.new_candidate(id);
        match c {
            Some(Candidate::Kept) => self.add_candidate(m, t, from, id, true),
            Some(Candidate::Queued) => self.add_candidate(m, t, from, id, false),
            None => Ok(set_aside(self.asking.request, t, cellid::lsb(id))),
        }
    }

    // The start cells, in order.
    fn initial_candidates(
        self,
        m: &mut [u64; MEMORY_WORDS],
        starts: &[u64],
    ) -> Result<Tally, Refusal>
        requires count_bound { length starts.now ≤ 6 }
        requires all { All (Fit self.asking.request) starts.now }
        ensures { Comes self.entry.engine (task self.entry) (after (in_edition (task self.entry)) starts.now 0) m.old m.new result }
    {
        let mut t = Tally {
            kept: 0,
            queued: 0,
            steps: 0,
            aside: Totals::NONE,
        };
        for (i, id) in starts.iter().enumerate() {
            let counts = Counts {
                kept: t.kept,
                queued: t.queued,
                aside: 0,
                steps: t.steps,
            };
            let turn = self.start(m, counts, i as u64, *id);
            t = end_turn(turn, t.aside, i as u64)?;
        }
        Ok(t)
    }

    // Step after step until the queue is empty or the allowance is used up.
    fn proceed(
        self,
        m: &mut [u64; MEMORY_WORDS],
        s: Tally,
        allowance: u32,
    ) -> Result<Tally, Refusal>
        requires live { Live self.engine (task self) m.old s }
        requires steps_le_allowance { s.steps ≤ allowance }
        ensures { (l : List ℕ) → Reached self.entry.engine (task self.entry) l m.old s → Comes self.entry.engine (task self.entry) (after (in_edition (task self.entry)) l allowance) m.old m.new result }
    {
        let mut t = s;
        while 0 < t.queued && t.steps < allowance {
            t = self.step(m, t)?;
        }
        Ok(t)
    }

    // The start cells, then the steps that are allowed.
    fn covering_internal(
        self,
        m: &mut [u64; MEMORY_WORDS],
        starts: &[u64],
        allowance: u32,
    ) -> Result<Tally, Refusal>
        requires count_bound { length starts.now ≤ 6 }
        requires all { All (Fit self.asking.request) starts.now }
        ensures { Comes self.entry.engine (task self.entry) (after (in_edition (task self.entry)) starts.now allowance) m.old m.new result }
    {
        let t = self.initial_candidates(m, starts)?;
        self.proceed(m, t, allowance)
    }
}

// The words of a run become zero, and the refusal is passed on.
fn refuse(m: &mut [u64; MEMORY_WORDS], refusal: Refusal) -> Result<Ran, Refusal>
    ensures { (result ≡ Err refusal) × (m.new ≡ cleared 0 memory_words m.old) }
{
    cellunion::clear(m, 0, MEMORY_WORDS);
    Err(refusal)
}

// Of the words of a run only the kept ids are left; the others become zero.
fn finish(m: &mut [u64; MEMORY_WORDS], t: Tally) -> Ran
    requires { t.kept ≤ raw_most }
    ensures { (result ≡ ran_of t) × (m.new ≡ cleared (queue_words + t.kept) memory_words (cleared 0 queue_words m.old)) }
{
    let end = QUEUE_WORDS + t.kept;
    cellunion::clear(m, 0, QUEUE_WORDS);
    cellunion::clear(m, end, MEMORY_WORDS);
    Ran {
        count: t.kept,
        steps: t.steps,
        aside: t.aside,
    }
}

// The whole run, region.rs's covering_internal, by either engine. Refused with 7, 8 or 9 as the run meets them; else the count, the steps and the set-aside totals
// by start cell, and the kept ids in the memory behind the queue's words, in the order kept. A step costs what its children's expansions cost, and a queue move
// for each. The start cells come as `fast` gives them, six words and how many of them count: there is no heap.
pub fn run(
    engine: Engine,
    mem: &mut [u64],
    q: Request,
    g: Region<'_>,
    ids: [u64; 6],
    count: usize,
    allowance: u32,
) -> Result<Ran, Refusal>
    requires memory_words_in_bounds { memory_words ≤ length mem.old }
    requires asks { Asks q (area_of g) }
    requires count_bound { count ≤ 6 }
    requires all { All (Fit q) (take count ids) }
    ensures value { result ≡ engine_answer (outcome_of q (area_of g.entry) (take count ids) allowance) }
    ensures mem_after { mem.new ≡ engine_memory (outcome_of q (area_of g.entry) (take count ids) allowance) mem.old }
{
    let asking = Asking {
        request: q,
        region: g,
    };
    let job = Job { asking, engine };
    let Some(m) = mem.first_chunk_mut::<MEMORY_WORDS>() else {
        unreachable!()
    };
    match job.covering_internal(m, &ids[..count], allowance) {
        Err(r) => refuse(m, r),
        Ok(t) => {
            if 0 < t.queued {
                refuse(m, Refusal::Allowance)
            } else {
                Ok(finish(m, t))
            }
        }
    }
}

// Lays the kept ids over the output's first places.
fn lay_raw(m: &[u64; MEMORY_WORDS], count: usize, out: &mut [u64])
    requires { (count ≤ raw_most) × (count ≤ length out.old) }
    ensures { out.new ≡ laid 0 (words_at queue_words count m.now) out.old }
{
    cellunion::copy(&m[QUEUE_WORDS..], count, out);
}

// Empties a queue of n records: the id, the cost and the start cell's place of each go to the output, from the place `at` on, the next one first.
fn list_queue(m: &mut [u64; MEMORY_WORDS], n: usize, e: Engine, out: &mut [u64], at: usize)
    requires { (n ≤ queue_most) × (at + 3 * n ≤ length out.old) }
    ensures out_after { (q : List Rec) → InQueue e m.old n q → out.new ≡ laid at (listed q) out.old }
    ensures m_unchanged { past memory_words m.new ≡ past memory_words m.old }
{
    let mut i = at;
    for left in (0..n).rev() {
        let r = e.take(m, left);
        out[i] = r.id;
        out[i + 1] = r.cost();
        out[i + 2] = r.from();
        i += 3;
    }
}

// Tells how a run stands: its kept ids and its queue over the output's first places, if these have room for all.
fn tell(m: &mut [u64; MEMORY_WORDS], t: Tally, e: Engine, out: &mut [u64]) -> Result<Seen, Refusal>
    requires { (t.kept ≤ raw_most) × (t.queued ≤ queue_most) }
    ensures value { (T : Task) (s : State) → Holds e T m.old t s → (result ≡ seen_of T (length out.old) (going s)) × (out.new ≡ seen_over T (going s) out.old) }
    ensures m_unchanged { past memory_words m.new ≡ past memory_words m.old }
{
    let kept = t.kept;
    let queued = t.queued;
    if kept + 3 * queued <= out.len() {
        lay_raw(m, kept, out);
        list_queue(m, queued, e, out, kept);
        Ok(Seen {
            kept,
            queued,
            steps: t.steps,
            aside: t.aside,
        })
    } else {
        Err(Refusal::ListTooLong)
    }
}

// The run as it stands after so many steps, or where its queue is empty before: in the output's first places the kept ids, in the order kept, then the queued
// cells, the next one first, each id followed by its cost and the place of its start cell. Refused with 7 or 8 as the run meets them up to there, with 10 where
// the output has no room for all that. The words of a run are zero afterwards.
pub fn watch(
    engine: Engine,
    mem: &mut [u64],
    q: Request,
    g: Region<'_>,
    ids: [u64; 6],
    count: usize,
    steps: u32,
    out: &mut [u64],
) -> Result<Seen, Refusal>
    requires memory_words_in_bounds { memory_words ≤ length mem.old }
    requires asks { Asks q (area_of g) }
    requires count_bound { count ≤ 6 }
    requires all { All (Fit q) (take count ids) }
    ensures value { result ≡ seen_of (task_of q (area_of g.entry)) (length out.old) (after (course_of q (area_of g.entry)) (take count ids) steps) }
    ensures out_after { out.new ≡ seen_over (task_of q (area_of g.entry)) (after (course_of q (area_of g.entry)) (take count ids) steps) out.old }
    ensures mem_after { mem.new ≡ cleared 0 memory_words mem.old }
{
    let asking = Asking {
        request: q,
        region: g,
    };
    let job = Job { asking, engine };
    let Some(m) = mem.first_chunk_mut::<MEMORY_WORDS>() else {
        unreachable!()
    };
    let seen = match job.covering_internal(m, &ids[..count], steps) {
        Err(r) => Err(r),
        Ok(t) => tell(m, t, engine, out),
    };
    cellunion::clear(m, 0, MEMORY_WORDS);
    seen
}
