// Reads a line after another from standard input and writes an answer a line: `ok STEPS ASIDE0 .. ASIDE5 COUNT ID...` to a request, `ok COUNT NUMBER...` to a
// question about lists, `refused NUMBER` to either, or `error LINE-NUMBER WORD` to a line that is neither. The last line of a whole output is `end N`, the number
// of lines answered. What a line asks and what is answered is the crate `lines`.
#![tactic(auto)]

ghost use Rattle.std.specs.Prelude.{◌+◌, ◌*◌, ◌≤◌, length};
ghost use Rattle.input.specs.Feed.{LineWithin};
ghost use Rattle.cover.specs.Cover.{Told, ToldAt};

use input::{Found, Span, Streams};
use text::Fault;

// Here and below the words, the memory and the output go by themselves, as `lines::answer` is lent them.
// The answer to what was found, whole, from the first byte of the page on, and how long it is.
fn answer(
    found: Found,
    number: u64,
    answered: u64,
    buf: &[u8],
    words: &mut [u64],
    mem: &mut [u64],
    out: &mut [u64],
    page: &mut [u8],
) -> usize
    requires { LineWithin (length buf.now) found × (17 * length out.old + 256 ≤ length page.old) }
    ensures { Told found number answered buf.now words.old words.new mem.old mem.new out.old out.new page.old result page.new }
{
    match found {
        Found::Line(line) => lines::answer(line.of(buf), number, words, mem, out, page),
        Found::TooLong => replies::put_error(page, number, Fault::LineTooLong),
        Found::Failed => replies::put_error(page, number, Fault::ReadFailed),
        Found::End => replies::put_end(page, answered),
    }
}

// The answer behind the first bytes of the page, which stay as they are, and the place after it.
fn answer_at(
    found: Found,
    number: u64,
    answered: u64,
    buf: &[u8],
    words: &mut [u64],
    mem: &mut [u64],
    out: &mut [u64],
    page: &mut [u8],
    at: usize,
) -> usize
    requires { LineWithin (length buf.now) found × (at + (17 * length out.old + 256) ≤ length page.old) }
    ensures { ToldAt found number answered buf.now words.old words.new mem.old mem.new out.old out.new at page.old result page.new }
{
    at + answer(
        found,
        number,
        answered,
        buf,
        words,
        mem,
        out,
        &mut page[at..],
    )
}

// Line after line, numbered from 1 on, until the input ends or fails, or the output can't be written. Answers wait in the page as long as nothing has to be
// read for the next line, and one more has room. The loop is its own: here answers wait, in `probe` each is written, in `steps` a line has several, `night` collects.
fn run(
    streams: Streams,
    buf: &mut [u8],
    words: &mut [u64],
    mem: &mut [u64],
    out: &mut [u64],
    page: &mut [u8],
)
    requires { 17 * length out.old + 256 ≤ length page.old }
{
    let longest = 17 * out.len() + 256;
    let mut unread = Span::NONE;
    let mut answered: u64 = 0;
    let mut waiting = 0;
    for before in 0..u64::MAX {
        let Some(turn) = input::read_line(streams, buf, unread, page, waiting, longest) else {
            return;
        };
        let found = turn.feed.found;
        waiting = answer_at(
            found,
            before + 1,
            answered,
            buf,
            words,
            mem,
            out,
            page,
            turn.waiting,
        );
        if !input::goes_on(streams, found, page, waiting) {
            return;
        }
        if turn.waiting < waiting {
            answered += 1;
        }
        unread = turn.feed.unread;
    }
    input::write(streams, &page[..waiting]);
}

fn main(rt: HostRuntime) {
    let mut buf: [u8; input::ROOM] = blank::filled(0);
    // Words for the lists of a line: more than the longest line can fill.
    let mut words: [u64; 16_384] = blank::filled(0);
    // The words of working memory, and the places of output, that a request may ask for.
    let mut mem: [u64; 8192] = blank::filled(0);
    let mut out: [u64; 65_536] = blank::filled(0);
    // Room for the longest answer, 65,536 ids of 17 bytes each and what stands before and after them, behind 65,536 bytes of answers that wait to be written.
    let mut page: [u8; 1_179_904] = blank::filled(0);
    run(
        input::standard_streams(rt),
        &mut buf,
        &mut words,
        &mut mem,
        &mut out,
        &mut page,
    );
}
