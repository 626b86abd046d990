// The lines of a night: what an order line, `KIND MIN MAX MOD MAX_CELLS REGION [allow=N] [edition=N]`, and the line before the orders, `night [out=N] [mem=N] [tokens=N]`, ask,
// and the lines that answer a night. Any numbers and any bits of floats are taken: whoever serves an order tests its domain.
#![tactic(auto)]

ghost use Rattle.std.specs.Prelude.{◌≡◌, ◌+◌, ◌*◌, ◌≤◌, length};
ghost use Rattle.replies.specs.Write.{Wrote, Whole};
ghost use Rattle.batch.specs.Batch.{flags_after, about_after, about_parts, lacking, terms_after, order_with, order_of, word_after, is_head, head_of, done_text, served_text, summary_text, too_many_text};

use cell::Cap;
use orders::Order;
use run::{MEMORY_WORDS, RegionCoverer};
use text::{Fault, Read};
use tokens::Form;
use totals::Totals;

// ---- an order

// The kind of an order, in the two flags of its record, which C reads: the quick covering, or else the inner or the outer one.
#[derive(Clone, Copy)]
struct Flags {
    fast: bool,
    inner: bool,
}

const OUTER: Flags = Flags {
    fast: false,
    inner: false,
};

const INNER: Flags = Flags {
    fast: false,
    inner: true,
};

const FAST: Flags = Flags {
    fast: true,
    inner: false,
};

// What an order asks about.
#[derive(Clone, Copy)]
enum About {
    Cap(Cap),
    Cell(u64),
}

// The words for it.
#[derive(Clone, Copy)]
enum Named {
    Cap,
    Cell,
}

// The terms of an order: the steps that are allowed, and the edition.
#[derive(Clone, Copy)]
struct Terms {
    allowance: u64,
    edition: u64,
}

// The order's kind. The parts of a line are read each from a place on, as text has them.
#[tactic(auto, unfolding(crate::specs::Batch::flags_after, text::specs::Ascii::ascii))]
fn read_flags(line: &[u8], at: usize) -> Result<Read<Flags>, Fault>
    ensures { result ≡ flags_after line.now at }
{
    text::read_choice(
        line,
        at,
        b"covering interior fast",
        &[OUTER, INNER, FAST],
        Fault::UnknownKind,
    )
}

// `cap X Y Z R` or `cell ID`.
#[tactic(auto, unfolding(crate::specs::Batch::about_after, crate::specs::Batch::about_named, text::specs::Ascii::ascii))]
fn read_about(line: &[u8], at: usize) -> Result<Read<About>, Fault>
    ensures { result ≡ about_after line.now at }
{
    let named = text::read_choice(
        line,
        at,
        b"cap cell",
        &[Named::Cap, Named::Cell],
        Fault::UnknownRegion,
    )?;
    match named.value {
        Named::Cap => {
            let cap = requests::read_cap(line, named.after)?;
            Ok(Read {
                value: About::Cap(cap.value),
                after: cap.after,
            })
        }
        Named::Cell => {
            let id = requests::read_cell(line, named.after)?;
            Ok(Read {
                value: About::Cell(id.value),
                after: id.after,
            })
        }
    }
}

// A fault, if an option was given that the line may not have.
fn lacks<T: Copy>(o: Option<T>) -> Result<(), Fault>
    ensures { result ≡ lacking o }
{
    match o {
        Some(_) => Err(Fault::ExtraField),
        None => Ok(()),
    }
}

// `[allow=N] [edition=N]` and the line's end.
#[tactic(auto, unfolding(crate::specs::Batch::terms_after))]
fn read_terms(line: &[u8], at: usize) -> Result<Terms, Fault>
    ensures { result ≡ terms_after line.now at }
{
    let options = requests::read_options(line, at)?;
    let o = options.value;
    lacks(o.out)?;
    lacks(o.mem)?;
    lacks(o.tokens)?;
    lacks(o.engines)?;
    text::read_end(line, options.after)?;
    Ok(Terms {
        allowance: o.allowance.unwrap_or(4294967295),
        edition: o.edition.unwrap_or(1),
    })
}

// What an order asks about, as its record has it: whether it is a cell, its id, and the cap; the other's numbers are 0.
#[tactic(auto, unfolding(crate::specs::Batch::about_parts))]
fn about_parts(a: About) -> (bool, u64, Cap)
    ensures { result ≡ about_parts a }
{
    match a {
        About::Cap(cap) => (false, 0, cap),
        About::Cell(id) => (true, id, requests::cap_of(0, 0, 0, 0)),
    }
}

// The record of an order, not served yet.
fn order_with(flags: Flags, numbers: RegionCoverer, about: About, terms: Terms) -> Order
    ensures { result ≡ order_with flags numbers about terms }
{
    let (cell, id, cap) = about_parts(about);
    Order {
        number: 0,
        count: 0,
        steps: 0,
        aside: Totals::NONE,
        fast: flags.fast,
        inner: flags.inner,
        cell,
        id,
        cap,
        coverer: RegionCoverer {
            edition: terms.edition,
            ..numbers
        },
        allowance: requests::allowance_of(terms.allowance),
    }
}

// The order that a line asks for, not served yet.
#[tactic(auto, unfolding(crate::specs::Batch::order_of))]
pub fn read_order(line: &[u8]) -> Result<Order, Fault>
    ensures { result ≡ order_of line.now }
{
    let start = text::read_start(line)?;
    let flags = read_flags(line, start)?;
    let numbers = requests::read_coverer(line, flags.after)?;
    let about = read_about(line, numbers.after)?;
    let terms = read_terms(line, about.after)?;
    Ok(order_with(flags.value, numbers.value, about.value, terms))
}

// ---- the line before the orders

// With how much a night is to be served: the places of output, the words of working memory; and how ids are to be written.
#[derive(Clone, Copy)]
pub struct Head {
    pub out: u64,
    pub mem: u64,
    pub form: Form,
}

// The word `night`.
#[tactic(auto, unfolding(crate::specs::Batch::word_after, text::specs::Ascii::ascii))]
fn read_word(line: &[u8], at: usize) -> Result<Read<()>, Fault>
    ensures { result ≡ word_after line.now at }
{
    text::read_choice(line, at, b"night", &[()], Fault::UnknownKind)
}

// Whether a line begins with that word.
#[tactic(auto, unfolding(crate::specs::Batch::is_head))]
pub fn is_head(line: &[u8]) -> bool
    ensures { result ≡ is_head line.now }
{
    read_word(line, 0).is_ok()
}

// What the line before the orders asks.
#[tactic(auto, unfolding(crate::specs::Batch::head_of))]
pub fn read_head(line: &[u8]) -> Result<Head, Fault>
    ensures { result ≡ head_of line.now }
{
    let start = text::read_start(line)?;
    let word = read_word(line, start)?;
    let options = requests::read_options(line, word.after)?;
    let o = options.value;
    lacks(o.allowance)?;
    lacks(o.edition)?;
    lacks(o.engines)?;
    text::read_end(line, options.after)?;
    Ok(Head {
        out: o.out.unwrap_or(65536),
        mem: o.mem.unwrap_or(MEMORY_WORDS as u64),
        form: requests::form_of(o.tokens.unwrap_or(0)),
    })
}

// ---- what answers a night

// The line of an order that is met: `ok BEGIN STEPS ASIDE0 .. ASIDE5 COUNT ID...`.
fn put_done(
    page: &mut [u8],
    form: Form,
    begin: u64,
    steps: u64,
    aside: Totals,
    ids: &[u64],
) -> usize
    ensures { Wrote 0 (done_text form begin steps aside ids.now) page.old result page.new }
{
    let a = replies::put_number(page, 0, b"ok ", begin);
    let b = replies::put_number(page, a, b" ", steps);
    let c = replies::put_totals(page, b, aside);
    let d = replies::put(page, c, b" ");
    replies::put_counted(page, d, form, ids)
}

// The line of an order that was served (its record, which C reads, has 0 for success), whole, from the first byte of the page on, and how long it is: its ids stand in the output from `begin` on. The page has
// room for as many ids as the output has places.
pub fn put_served(page: &mut [u8], form: Form, o: Order, begin: usize, out: &[u64]) -> usize
    requires { (begin + o.count ≤ length out.now) × (17 * length out.now + 256 ≤ length page.old) }
    ensures { Whole (served_text form o begin out.now) page.old result page.new }
{
    if o.number == 0 {
        let end = begin + o.count;
        let aside = o.aside;
        return put_done(
            page,
            form,
            begin as u64,
            o.steps as u64,
            aside,
            &out[begin..end],
        );
    }
    replies::put_refused(page, o.number)
}

// The line after the orders' lines, whole: `end ORDERS REFUSED CELLS LEFT`.
pub fn put_summary(page: &mut [u8], orders: u64, refused: u64, cells: u64, left: u64) -> usize
    requires { 128 ≤ length page.old }
    ensures { Whole (summary_text orders refused cells left) page.old result page.new }
{
    let a = replies::put_number(page, 0, b"end ", orders);
    let b = replies::put_number(page, a, b" ", refused);
    let c = replies::put_number(page, b, b" ", cells);
    let d = replies::put_number(page, c, b" ", left);
    replies::put(page, d, b"\n")
}

// The one line that answers a night of more than 256 orders, whole.
pub fn put_too_many(page: &mut [u8]) -> usize
    requires { 128 ≤ length page.old }
    ensures { Whole too_many_text page.old result page.new }
{
    replies::put(
        page,
        0,
        b"refused 13: more than 256 orders, nothing was run\n",
    )
}
