// A text with an id a line, in one form, turned into the other: what the programs `read_tokens` and `write_tokens` do with all of their input. What is
// refused is told on standard error, and nothing is written to standard output then.
// What a program lends, the text's buffer, the ids and the page, goes side by side: a contract speaks of each.
#![tactic(auto)]

ghost use Rattle.std.specs.Prelude.{◌≡◌, ◌≤◌, ◌<◌, length};
ghost use Rattle.replies.specs.Write.{Wrote};
ghost use Rattle.filter.specs.Filter.{Turned, malformed_text, over_text, refusal_text, length_said, Replied};

use input::{Found, Streams};
use refusal::Refusal;
use tokens::Form;

// Turns a text in one form into one in the other, over the list that it is.
pub fn turn(
    from: Form,
    to: Form,
    text: &[u8],
    ids: &mut [u64],
    page: &mut [u8],
) -> Result<usize, Refusal>
    ensures { Turned from to text.now result ids.old ids.new page.old page.new }
{
    let n = tokens::read(from, text, ids)?;
    tokens::write(to, &ids[..n], page)
}

// Says which line is malformed.
fn put_malformed(page: &mut [u8], k: u64) -> usize
    ensures { Wrote 0 (malformed_text k) page.old result page.new }
{
    let n = replies::put_number(page, 0, b"refused 11: line ", k);
    replies::put(page, n, b"\n")
}

// Says that there are over so many lines, or bytes.
fn put_over(page: &mut [u8], most: usize, what: &[u8]) -> usize
    ensures { Wrote 0 (over_text most what.now) page.old result page.new }
{
    let n = replies::put_number(page, 0, b"refused 12: over ", most as u64);
    replies::put(page, n, what)
}

// Says why there is no other text, where there are so many places for ids.
fn put_refusal(page: &mut [u8], refusal: Refusal, places: usize) -> usize
    ensures { Wrote 0 (refusal_text places refusal) page.old result page.new }
{
    match refusal {
        Refusal::Malformed(k) => put_malformed(page, k),
        _ => put_over(page, places, b" lines\n"),
    }
}

// What is to be written for a text, from the first byte of the page on, and how many bytes it is: the other text, or why there is none.
pub fn answer(
    from: Form,
    to: Form,
    text: &[u8],
    ids: &mut [u64],
    page: &mut [u8],
) -> Result<usize, usize>
    requires { 64 ≤ length page.old }
    ensures { Replied from to text.now result ids.old ids.new page.old page.new }
{
    match turn(from, to, text, ids, page) {
        Ok(n) => Ok(n),
        Err(refusal) => Err(put_refusal(page, refusal, ids.len())),
    }
}

// Writes what there is to write: an answer to standard output, else to standard error.
fn tell(streams: Streams, reply: Result<usize, usize>, page: &[u8])
    requires { length_said reply ≤ length page.now }
{
    match reply {
        Ok(n) => {
            input::write(streams, &page[..n]);
        }
        Err(n) => input::say(streams, &page[..n]),
    }
}

// Takes all of standard input.
fn turn_all(
    streams: Streams,
    from: Form,
    to: Form,
    buf: &mut [u8],
    ids: &mut [u64],
    page: &mut [u8],
)
    requires { (0 < length buf.old) × (64 ≤ length page.old) }
{
    match input::read_all(streams, buf) {
        Ok(Some(n)) => {
            let reply = answer(from, to, &buf[..n], ids, page);
            tell(streams, reply, page);
        }
        Ok(None) => {
            let n = put_over(page, buf.len() - 1, b" bytes\n");
            tell(streams, Err(n), page);
        }
        Err(_) => {
            input::tell(streams, Found::Failed, b"");
        }
    }
}

// The whole of either program: a text of at most 65,536 lines of sixteen digits.
pub fn run(streams: Streams, from: Form, to: Form) {
    // A byte more than the longest text, as reading to the end needs.
    let mut buf: [u8; 1_114_113] = blank::filled(0);
    let mut ids: [u64; 65_536] = blank::filled(0);
    let mut page: [u8; 1_114_112] = blank::filled(0);
    turn_all(streams, from, to, &mut buf, &mut ids, &mut page);
}
