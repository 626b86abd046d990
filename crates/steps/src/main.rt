// Reads a request a line from standard input, as `cover` does, and writes how the plain engine runs it, a line after each step: the cell that the step took, its
// cost and the place of its start cell, what is kept then, what is queued, the leaves set aside under each start cell, the kept ids, and the queued ones with
// their costs and their start cells' places, the next one first. It is for people who follow a run: what each step leaves is what `covering::watch` ensures, and
// of the lines nothing is promised. Every step is run anew from the start cells, so a run of n steps costs what n * n / 2 steps cost. out= and tokens= make no
// difference: ids are always written as 16 digits.
// What `main` lends, the streams, the memory, the output and the page, goes side by side, and the page with how much of it is filled: all memory is lent, and parts of it
// are written while others are read.
#![tactic(auto)]

ghost use Rattle.std.specs.Prelude.{◌+◌, ◌*◌, ◌≤◌, length};
ghost use Rattle.input.specs.Feed.{LineWithin};

use coverer::Seen;
use covering::Kind;
use input::{Found, Span, Streams};
use queue::Engine;
use refusal::Refusal;
use region::Region;
use requests::Asked;
use run::RegionCoverer;
use text::Fault;
use tokens::Form;
use totals::Totals;

// Room for the longest line: 1,024 ids of 17 bytes, 1,024 queued ones of 26 at most, and what stands before them.
type Page = [u8; 65536];

// Places for the most that a run keeps, and for the most that it queues, three each.
type Places = [u64; 4096];

// The next cell of a queue, its cost, and the place of its start cell.
#[derive(Clone, Copy)]
struct Ahead {
    id: u64,
    cost: u64,
    from: u64,
}

// Why nothing more is read: the output can't be written, or the input has ended or failed.
#[derive(Clone, Copy)]
struct Stop;

// A run that is followed: of a covering from outside or from inside, as `covering::watch` takes it.
#[derive(Clone, Copy)]
struct Followed<'a> {
    inner: bool,
    coverer: RegionCoverer,
    region: Region<'a>,
}

// ---- lines

// Writes the first n bytes of the page.
fn say(streams: Streams, page: &Page, n: usize) -> Result<(), Stop> {
    if n <= page.len() && input::write(streams, &page[..n]) {
        Ok(())
    } else {
        Err(Stop)
    }
}

fn say_error(streams: Streams, number: u64, f: Fault, page: &mut Page) -> Result<(), Stop> {
    let n = replies::put_error(page, number, f);
    say(streams, page, n)
}

fn say_refused(streams: Streams, number: u64, page: &mut Page) -> Result<(), Stop> {
    let n = replies::put_refused(page, number);
    say(streams, page, n)
}

// Writes the first n bytes of the page, the last that is said.
fn say_last(streams: Streams, found: Found, page: &Page, n: usize) -> Result<bool, Stop> {
    if n <= page.len() {
        input::tell(streams, found, &page[..n]);
    }
    Err(Stop)
}

// `done STEPS ASIDE0 .. ASIDE5 KEPT`.
fn say_done(streams: Streams, seen: Seen, page: &mut Page) -> Result<(), Stop> {
    let a = replies::put_number(page, 0, b"done ", u64::from(seen.steps));
    let b = replies::put_totals(page, a, seen.aside);
    let c = replies::put_number(page, b, b" ", seen.kept as u64);
    let n = replies::put(page, c, b"\n");
    say(streams, page, n)
}

// `step K TAKEN COST FROM KEPT QUEUED ASIDE0 .. ASIDE5`.
fn put_head(page: &mut Page, k: u32, taken: Ahead, seen: Seen) -> usize {
    let a = replies::put_number(page, 0, b"step ", u64::from(k));
    let b = replies::put(page, a, b" ");
    let c = replies::put_name(page, b, Form::Digits, taken.id);
    let d = replies::put_number(page, c, b" ", taken.cost);
    let e = replies::put_number(page, d, b" ", taken.from);
    let f = replies::put_number(page, e, b" ", seen.kept as u64);
    let g = replies::put_number(page, f, b" ", seen.queued as u64);
    replies::put_totals(page, g, seen.aside)
}

// The i-th word of a list of queued cells: an id, its cost, or its start cell's place.
fn put_word(page: &mut Page, at: usize, i: usize, x: u64) -> usize {
    let n = replies::put(page, at, b" ");
    if i % 3 == 0 {
        replies::put_name(page, n, Form::Digits, x)
    } else {
        replies::put_decimal(page, n, x)
    }
}

fn put_queued(page: &mut Page, at: usize, queued: &[u64]) -> usize {
    let mut n = at;
    for (i, x) in queued.iter().enumerate() {
        n = put_word(page, n, i, *x);
    }
    n
}

fn say_step(
    streams: Streams,
    k: u32,
    taken: Ahead,
    seen: Seen,
    out: &[u64],
    page: &mut Page,
) -> Result<(), Stop>
    requires { seen.kept + 3 * seen.queued ≤ length out.now }
{
    let end = seen.kept + 3 * seen.queued;
    let a = put_head(page, k, taken, seen);
    let b = replies::put_ids(page, a, Form::Digits, &out[..seen.kept]);
    let c = put_queued(page, b, &out[seen.kept..end]);
    let n = replies::put(page, c, b"\n");
    say(streams, page, n)
}

// ---- a run

// Writes what stands after k steps, and the run's end where nothing is queued; else the next cell goes first.
fn show(
    streams: Streams,
    k: u32,
    taken: Ahead,
    seen: Seen,
    out: &[u64],
    page: &mut Page,
) -> Result<Option<Ahead>, Stop>
    requires { seen.kept + 3 * seen.queued ≤ length out.now }
{
    say_step(streams, k, taken, seen, out, page)?;
    if seen.queued == 0 {
        say_done(streams, seen, page)?;
        return Ok(None);
    }
    let id = out[seen.kept];
    let cost = out[seen.kept + 1];
    let from = out[seen.kept + 2];
    Ok(Some(Ahead { id, cost, from }))
}

// The run after k steps.
fn watch_step(
    streams: Streams,
    run: Followed<'_>,
    k: u32,
    taken: Ahead,
    mem: &mut [u64],
    out: &mut Places,
    page: &mut Page,
) -> Result<Option<Ahead>, Stop> {
    match covering::watch(
        Engine::Plain,
        run.inner,
        run.coverer,
        run.region,
        k,
        mem,
        out,
    ) {
        Ok(seen) => show(streams, k, taken, seen, out, page),
        Err(refusal) => {
            say_refused(streams, refusal.number(), page)?;
            Ok(None)
        }
    }
}

// The steps that are allowed, from the start cells on; where more would follow, the run is refused.
fn follow(
    streams: Streams,
    run: Followed<'_>,
    allowance: u32,
    mem: &mut [u64],
    out: &mut Places,
    page: &mut Page,
) -> Result<(), Stop> {
    let mut taken = Ahead {
        id: 0,
        cost: 0,
        from: 0,
    };
    for k in 0..allowance {
        let Some(next) = watch_step(streams, run, k, taken, mem, out, page)? else {
            return Ok(());
        };
        taken = next;
    }
    match watch_step(streams, run, allowance, taken, mem, out, page)? {
        None => Ok(()),
        Some(_) => say_refused(streams, Refusal::Allowance.number(), page),
    }
}

// A request with as much of the memory as it asks for; the quick covering takes no steps to follow.
fn answer_asked(
    streams: Streams,
    q: Asked,
    region: Region<'_>,
    number: u64,
    mem: &mut [u64],
    out: &mut Places,
    page: &mut Page,
) -> Result<(), Stop> {
    let inner = match q.kind {
        Kind::Outer(_) => false,
        Kind::Inner(_) => true,
        Kind::Fast => return say_error(streams, number, Fault::OutsideDomain, page),
    };
    let m = (q.mem as usize).min(mem.len());
    let run = Followed {
        inner,
        coverer: q.coverer,
        region,
    };
    follow(
        streams,
        run,
        requests::allowance_of(q.allowance),
        &mut mem[..m],
        out,
        page,
    )
}

// ---- line after line

// Answers a line, and tells whether it asks anything.
fn answer_line(
    streams: Streams,
    line: &[u8],
    number: u64,
    words: &mut [u64],
    mem: &mut [u64],
    out: &mut Places,
    page: &mut Page,
) -> Result<bool, Stop> {
    if text::is_silent(line) {
        return Ok(false);
    }
    match requests::read_asked(line, words) {
        Ok(q) => {
            let region = q.shape.region(words);
            answer_asked(streams, q, region, number, mem, out, page)?;
        }
        Err(fault) => say_error(streams, number, fault, page)?,
    }
    Ok(true)
}

fn answer(
    streams: Streams,
    found: Found,
    number: u64,
    answered: u64,
    buf: &[u8],
    words: &mut [u64],
    mem: &mut [u64],
    out: &mut Places,
    page: &mut Page,
) -> Result<bool, Stop>
    requires { LineWithin (length buf.now) found }
{
    match found {
        Found::Line(line) => answer_line(streams, line.of(buf), number, words, mem, out, page),
        Found::TooLong => {
            say_error(streams, number, Fault::LineTooLong, page)?;
            Ok(true)
        }
        Found::Failed => {
            let n = replies::put_error(page, number, Fault::ReadFailed);
            say_last(streams, found, page, n)
        }
        Found::End => {
            let n = replies::put_end(page, answered);
            say_last(streams, found, page, n)
        }
    }
}

// Line after line, numbered from 1 on, until the input ends or fails, or the output can't be written.
fn run(
    streams: Streams,
    buf: &mut [u8],
    words: &mut [u64],
    mem: &mut [u64],
    out: &mut Places,
    page: &mut Page,
) {
    let mut unread = Span::NONE;
    let mut answered: u64 = 0;
    for before in 0..u64::MAX {
        let feed = input::next_line(streams, buf, unread);
        match answer(
            streams,
            feed.found,
            before + 1,
            answered,
            buf,
            words,
            mem,
            out,
            page,
        ) {
            Ok(true) => answered += 1,
            Ok(false) => {}
            Err(Stop) => return,
        }
        unread = feed.unread;
    }
}

fn main(rt: HostRuntime) {
    let mut buf: [u8; input::ROOM] = blank::filled(0);
    // Words for a region's list: more than the longest line can fill.
    let mut words: [u64; 16_384] = blank::filled(0);
    let mut mem: [u64; 5120] = blank::filled(0);
    let mut out: Places = blank::filled(0);
    let mut page: Page = blank::filled(0);
    run(
        input::standard_streams(rt),
        &mut buf,
        &mut words,
        &mut mem,
        &mut out,
        &mut page,
    );
}
