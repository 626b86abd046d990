// A night's orders from standard input, served in one call. All lines are read first: where one is no order, or there are more than 256, standard error says so,
// and no order is run. Else standard output has a line for each order, in their order, and a last line with the night's sums.
#![tactic(auto)]

ghost use Rattle.std.specs.Prelude.{◌≡◌, ◌+◌, ◌*◌, ◌≤◌, length};
ghost use Rattle.input.specs.Feed.{LineWithin};
ghost use Rattle.orders.specs.Nights.{places_of};
ghost use Rattle.night.specs.Night.{is_end, head_heard, order_heard, line_heard, heard_in};

use batch::Head;
use input::{Found, Span, Streams};
use orders::{NIGHT_MOST, Order};
use run::{MEMORY_WORDS, RegionCoverer};
use text::Fault;
use tokens::Form;
use totals::Totals;

// What a line is: nothing, the line before the orders, or an order.
#[derive(Clone, Copy)]
enum Heard {
    Silent,
    Begin(Head),
    Take(Order),
}

// What a line is, or what is wrong with it: only the first that is not silent can be the one before the orders.
fn hear_line(line: &[u8], first: bool) -> Result<Heard, Fault>
    ensures { result ≡ line_heard line.now first }
{
    if text::is_silent(line) {
        Ok(Heard::Silent)
    } else if first && batch::is_head(line) {
        Ok(Heard::Begin(batch::read_head(line)?))
    } else {
        Ok(Heard::Take(batch::read_order(line)?))
    }
}

// What was found in the input, before its end.
fn hear(found: Found, first: bool, buf: &[u8]) -> Result<Heard, Fault>
    requires { LineWithin (length buf.now) found }
    ensures { result ≡ heard_in found first buf.now }
{
    match found {
        Found::Line(line) => hear_line(line.of(buf), first),
        Found::TooLong => Err(Fault::LineTooLong),
        Found::End => Ok(Heard::Silent),
        Found::Failed => Err(Fault::ReadFailed),
    }
}

// Whether the input has ended, so that all orders are heard: only then are they served.
fn is_end(found: Found) -> bool
    ensures { result ≡ is_end found }
{
    matches!(found, Found::End)
}

// Writes the line of an order that was served to standard output, and tells whether it could be written.
fn tell_order(
    streams: Streams,
    o: Order,
    begin: usize,
    form: Form,
    out: &[u64],
    page: &mut [u8],
) -> bool
    requires { (begin + o.count ≤ length out.now) × (17 * length out.now + 256 ≤ length page.old) }
{
    let length = batch::put_served(page, form, o, begin, out);
    input::write(streams, &page[..length])
}

// Writes the last line of a night to standard output.
fn tell_end(
    streams: Streams,
    orders: usize,
    refused: u64,
    cells: usize,
    left: usize,
    page: &mut [u8],
)
    requires { 128 ≤ length page.old }
{
    let length = batch::put_summary(page, orders as u64, refused, cells as u64, left as u64);
    input::write(streams, &page[..length]);
}

// Writes the line of each of the orders that were served, and the last line.
fn tell_night(streams: Streams, orders: &[Order], form: Form, out: &[u64], page: &mut [u8])
    requires { (places_of orders.now ≤ length out.now) × (17 * length out.now + 256 ≤ length page.old) }
{
    let mut begin: usize = 0;
    let mut refused: u64 = 0;
    for order in orders {
        if !tell_order(streams, *order, begin, form, out, page) {
            return;
        }
        if order.number != 0 {
            refused += 1;
        }
        begin += order.count;
    }
    tell_end(
        streams,
        orders.len(),
        refused,
        begin,
        out.len() - begin,
        page,
    );
}

// Serves the orders that were read, with as much of the memory and of the output as the head asks for, and tells how they were answered.
fn serve_and_tell(
    streams: Streams,
    orders: &mut [Order],
    head: Head,
    mem: &mut [u64],
    out: &mut [u64],
    page: &mut [u8],
)
    requires { (length orders.old ≤ 256) × (17 * length out.old + 256 ≤ length page.old) }
{
    let m = (head.mem as usize).min(mem.len());
    let o = (head.out as usize).min(out.len());
    // Never refused: no more orders are taken than a night may have.
    let _ = orders::night(orders, &mut mem[..m], &mut out[..o]);
    tell_night(streams, orders, head.form, &out[..o], page);
}

// Says on standard error that there are too many orders.
fn say_too_many(streams: Streams, page: &mut [u8])
    requires { 128 ≤ length page.old }
{
    let length = batch::put_too_many(page);
    input::say(streams, &page[..length]);
}

// Says on standard error what is wrong with a line.
fn say_wrong(streams: Streams, number: u64, fault: Fault, page: &mut [u8])
    requires { 256 ≤ length page.old }
{
    let length = replies::put_error(page, number, fault);
    input::say(streams, &page[..length]);
}

// A place for an order.
fn no_order() -> Order {
    Order {
        number: 0,
        count: 0,
        steps: 0,
        aside: Totals::NONE,
        fast: false,
        inner: false,
        cell: true,
        id: 0,
        cap: requests::cap_of(0, 0, 0, 0),
        coverer: RegionCoverer {
            min_level: 0,
            max_level: 0,
            level_mod: 0,
            max_cells: 0,
            edition: 0,
        },
        allowance: 0,
    }
}

// Line after line until the input ends, then the night; nothing is served where something is wrong with a line, or there are too many orders.
fn run(streams: Streams, buf: &mut [u8], mem: &mut [u64], out: &mut [u64], page: &mut [u8])
    requires { 17 * length out.old + 256 ≤ length page.old }
{
    let mut head = Head {
        out: 65_536,
        mem: MEMORY_WORDS as u64,
        form: Form::Digits,
    };
    // An array with a number of orders beside it: no memory is asked for.
    let mut orders = [no_order(); NIGHT_MOST];
    let mut n: usize = 0;
    let mut first = true;
    let mut unread = Span::NONE;
    for before in 0..u64::MAX {
        let feed = input::next_line(streams, buf, unread);
        if is_end(feed.found) {
            serve_and_tell(streams, &mut orders[..n], head, mem, out, page);
            return;
        }
        match hear(feed.found, first, buf) {
            Ok(Heard::Silent) => {}
            Ok(Heard::Begin(h)) => {
                head = h;
                first = false;
            }
            Ok(Heard::Take(o)) => {
                if n == NIGHT_MOST {
                    say_too_many(streams, page);
                    return;
                }
                orders[n] = o;
                n += 1;
                first = false;
            }
            Err(fault) => {
                say_wrong(streams, before + 1, fault, page);
                return;
            }
        }
        unread = feed.unread;
    }
}

fn main(rt: HostRuntime) {
    let mut buf: [u8; input::ROOM] = blank::filled(0);
    let mut mem: [u64; 8192] = blank::filled(0);
    let mut out: [u64; 65_536] = blank::filled(0);
    // Room for the longest line, 65,536 ids of 17 bytes each and what stands before and after them.
    let mut page: [u8; 1_114_368] = blank::filled(0);
    run(
        input::standard_streams(rt),
        &mut buf,
        &mut mem,
        &mut out,
        &mut page,
    );
}
