// The public answers of the region coverer. Every function takes any numbers, any region, any lent memory and output, and asks nothing of the caller: levels,
// region, memory and allowance are checked here. A refusal is one of paper 01's; it leaves the output unchanged.
#![tactic(auto)]

ghost use Rattle.std.specs.Prelude.{◌≤◌, ◌<◌, ◌≡◌, length, take, Ok};
ghost use Rattle.cellid.specs.CellId.{Cell};
ghost use Rattle.order.specs.Order.{All};
ghost use Rattle.cellunion.specs.Memory.{room_for, laid_over};
ghost use Rattle.bars.specs.Bars.{bar_of};
ghost use Rattle.covering.specs.Covering.{values_told, fitted, list_of, ran_of, ended_as, left_by, answer_laid, comes_to, result_of, Answered};
ghost use Rattle.covering.specs.Watch.{Watched};
ghost use Rattle.fast.specs.Memory.{fast_covering_for};
ghost use Rattle.region.specs.Region.{area_of, bound_of};
ghost use Rattle.totals.specs.Totals.{no_totals};
ghost use Rattle.run.specs.Run.{raw_most, queue_words, memory_words};
ghost use Rattle.coverer.specs.Coverer.{cleared, only_words, engine_answer, engine_memory};
ghost use Rattle.coverer.specs.Engine.{words_at};

use coverer::{Ran, Seen};
use queue::Engine;
use refusal::Refusal;
use region::Region;
use run::{MEMORY_WORDS, QUEUE_WORDS, RegionCoverer, Request};
use totals::Totals;

// An answer's values: how many ids stand in the output's first places, how many steps the run took, how many leaves it set aside under each start cell. Of the shape
// of `Ran`, whose count is of ids in the memory.
#[derive(Clone, Copy, PartialEq)]
pub struct Answer {
    pub count: usize,
    pub steps: u32,
    pub aside: Totals,
}

impl Answer {
    // The values that are told of an answer: of a refusal zeros.
    pub fn told(answer: Result<Answer, Refusal>) -> Answer
        ensures { result ≡ values_told answer }
    {
        answer.unwrap_or(Answer {
            count: 0,
            steps: 0,
            aside: Totals::NONE,
        })
    }
}

// Which list of a run a request asks for: the raw one, in the order kept, the normalised one, or the final one.
#[derive(Clone, Copy)]
pub enum Ending {
    Raw,
    CellUnion,
    Covering,
}

// Every kind of answer: a list of the outer run, one of the inner run, or the quick covering. Three kinds, of which the third has no list to choose.
#[derive(Clone, Copy)]
pub enum Kind {
    Outer(Ending),
    Inner(Ending),
    Fast,
}

// Lays the list that is asked for over the output's first places, made of the first `count` ids, in place: the words past them stay, so
// the lent memory goes with the count.
fn lay_list(
    e: Ending,
    c: RegionCoverer,
    ids: &mut [u64],
    count: usize,
    out: &mut [u64],
) -> Option<usize>
    requires { (count ≤ length ids.old) × All Cell (take count ids.old) × (c.min_level ≤ 30) × (0 < c.level_mod) }
    ensures { (result ≡ room_for (list_of e c (take count ids.old)) out.old) × (out.new ≡ laid_over (list_of e c (take count ids.old)) out.old) × (ids.new ≡ left_by e count ids.old) }
{
    match e {
        Ending::Raw => cellunion::lay(&ids[..count], out),
        Ending::CellUnion => {
            let k = cellunion::normalize(ids, count);
            cellunion::lay(&ids[..k], out)
        }
        Ending::Covering => {
            let k = cellunion::normalize(ids, count);
            denorm::denormalize(&ids[..k], c.min_level, c.level_mod, out)
        }
    }
}

// The words of a run become zero.
fn clear_front(mem: &mut [u64])
    requires { memory_words ≤ length mem.old }
    ensures { mem.new ≡ cleared 0 memory_words mem.old }
{
    cellunion::clear(mem, 0, MEMORY_WORDS);
}

// The answer to a list that was laid, or had no room.
fn laid_answer(laid: Option<usize>, steps: u32, aside: Totals) -> Result<Answer, Refusal>
    ensures { result ≡ answer_laid laid steps aside }
{
    match laid {
        Some(count) => Ok(Answer {
            count,
            steps,
            aside,
        }),
        None => Err(Refusal::ListTooLong),
    }
}

// What is asked goes part by part from here on, as `fast`, `coverer` and `denorm` take it; and that nothing bars it no ghost field can say, since it speaks of the
// length of the lent memory.

// The run of a request that lies in the domain, from its start cells; the raw list stays in the memory, behind the queue's words.
fn run_from_starts(
    engine: Engine,
    inner: bool,
    c: RegionCoverer,
    g: Region<'_>,
    allowance: u32,
    mem: &mut [u64],
) -> Result<Ran, Refusal>
    requires { bar_of c (area_of g) (length mem.old) ≡ Ok tt }
    ensures { (result ≡ engine_answer (ran_of inner c (area_of g.entry) allowance)) × (mem.new ≡ engine_memory (ran_of inner c (area_of g.entry) allowance) mem.old) }
{
    let starts = fast::starts(c, g, mem);
    let q = Request { coverer: c, inner };
    let ids = starts.ids;
    coverer::run(engine, mem, q, g, ids, starts.count, allowance)
}

// Ends a request whose raw list stands in the memory behind the queue's words: lays the list that is asked for over the output, if it has room, and clears
// the raw list's words. The other words of a run are zero already.
fn finish(
    e: Ending,
    c: RegionCoverer,
    ran: Ran,
    mem: &mut [u64],
    out: &mut [u64],
) -> Result<Answer, Refusal>
    requires memory_words_in_bounds { (memory_words ≤ length mem.old) × (ran.count ≤ raw_most) × All Cell (words_at queue_words ran.count mem.old) × (c.min_level ≤ 30) × (0 < c.level_mod) }
    requires mem_value { mem.old ≡ only_words queue_words memory_words (words_at queue_words ran.count mem.old) mem.old }
    ensures { Answered (fitted (length out.old) (list_of e c (words_at queue_words ran.count mem.old)) ran.steps ran.aside) result mem.old mem.new out.old out.new }
{
    let laid = lay_list(e, c, &mut mem[QUEUE_WORDS..], ran.count, out);
    cellunion::clear(mem, QUEUE_WORDS, QUEUE_WORDS + ran.count);
    laid_answer(laid, ran.steps, ran.aside)
}

// The run of a request that is not barred, and the list that it asks for.
fn run_and_finish(
    engine: Engine,
    e: Ending,
    inner: bool,
    c: RegionCoverer,
    g: Region<'_>,
    allowance: u32,
    mem: &mut [u64],
    out: &mut [u64],
) -> Result<Answer, Refusal>
    requires { bar_of c (area_of g) (length mem.old) ≡ Ok tt }
    ensures { Answered (ended_as e c (length out.old) (ran_of inner c (area_of g.entry) allowance)) result mem.old mem.new out.old out.new }
{
    let ran = run_from_starts(engine, inner, c, g, allowance, mem)?;
    finish(e, c, ran, mem, out)
}

// The quick covering of a request that is not barred.
fn lay_fast(
    c: RegionCoverer,
    g: Region<'_>,
    mem: &mut [u64],
    out: &mut [u64],
) -> Result<Answer, Refusal>
    requires { bar_of c (area_of g) (length mem.old) ≡ Ok tt }
    ensures { Answered (fitted (length out.old) (fast_covering_for c (bound_of (area_of g.entry))) 0 no_totals) result mem.old mem.new out.old out.new }
{
    let laid = fast::fast_covering(c, g, mem, out);
    clear_front(mem);
    laid_answer(laid, 0, Totals::NONE)
}

// What a request that is not barred comes to, by its kind.
fn come_to(
    engine: Engine,
    kind: Kind,
    c: RegionCoverer,
    g: Region<'_>,
    allowance: u32,
    mem: &mut [u64],
    out: &mut [u64],
) -> Result<Answer, Refusal>
    requires { bar_of c (area_of g) (length mem.old) ≡ Ok tt }
    ensures { Answered (comes_to kind c (area_of g.entry) allowance (length out.old)) result mem.old mem.new out.old out.new }
{
    match kind {
        Kind::Outer(e) => run_and_finish(engine, e, false, c, g, allowance, mem, out),
        Kind::Inner(e) => run_and_finish(engine, e, true, c, g, allowance, mem, out),
        Kind::Fast => lay_fast(c, g, mem, out),
    }
}

// A request of any kind, its run by either engine. `Outer(Covering)` gives cells of levels min_level to max_level, in whole steps of level_mod, that cover the
// region as the outer run does, `Inner(Covering)` such cells inside it; of the lists that are only normalised, and of the raw ones, nothing is promised of levels.
// The quick covering comes from the region's bound alone and takes no steps: neither the allowance nor the engine matters to it.
pub fn respond(
    engine: Engine,
    kind: Kind,
    c: RegionCoverer,
    g: Region<'_>,
    allowance: u32,
    mem: &mut [u64],
    out: &mut [u64],
) -> Result<Answer, Refusal>
    ensures { Answered (result_of kind c (area_of g.entry) allowance (length mem.old) (length out.old)) result mem.old mem.new out.old out.new }
{
    bars::first_refusal(c, g, mem.len())?;
    come_to(engine, kind, c, g, allowance, mem, out)
}

// The run of a request that is not barred, from its start cells, as it stands after so many steps.
fn watch_from_starts(
    engine: Engine,
    inner: bool,
    c: RegionCoverer,
    g: Region<'_>,
    steps: u32,
    mem: &mut [u64],
    out: &mut [u64],
) -> Result<Seen, Refusal>
    requires { bar_of c (area_of g) (length mem.old) ≡ Ok tt }
    ensures { Watched inner c (area_of g.entry) steps result mem.old mem.new out.old out.new }
{
    let starts = fast::starts(c, g, mem);
    let q = Request { coverer: c, inner };
    let ids = starts.ids;
    coverer::watch(engine, mem, q, g, ids, starts.count, steps, out)
}

// A request's run as it stands after so many steps, or where its queue is empty before, by either engine: in the output's first places the kept ids, in the
// order kept, then the queued cells, the next one first, each id followed by its cost and its start cell's place. Refused with 1 to 6 and 14 as any request; with 7 or 8
// as the run meets them up to there; with 10 where the output has no room for all that.
pub fn watch(
    engine: Engine,
    inner: bool,
    c: RegionCoverer,
    g: Region<'_>,
    steps: u32,
    mem: &mut [u64],
    out: &mut [u64],
) -> Result<Seen, Refusal>
    ensures { Watched inner c (area_of g.entry) steps result mem.old mem.new out.old out.new }
{
    bars::first_refusal(c, g, mem.len())?;
    watch_from_starts(engine, inner, c, g, steps, mem, out)
}
