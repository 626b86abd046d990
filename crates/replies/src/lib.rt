// Answers as bytes of a buffer: each function writes from a place on, as long as there is room, and answers the place after.
// The buffer and the place go side by side: a struct of the two would be made and taken apart at each call, and what is promised is of the whole buffer (`Wrote`).
#![tactic(auto)]

ghost use Rattle.std.specs.Prelude.{◌≡◌, ◌++◌};
ghost use Rattle.tokens.specs.Tokens.{name_of};
ghost use Rattle.replies.specs.Write.{Wrote, decimal_text, id_text, ids_text, fault_text, error_text, refused_text, disagree_text, end_text, counted_text, totals_text, ok_text, list_text};

use text::Fault;
use tokens::Form;
use totals::Totals;

// Writes s.
pub fn put(text: &mut [u8], at: usize, s: &[u8]) -> usize
    ensures { Wrote at s.now text.old result text.new }
{
    if text.len() <= at {
        return at;
    }
    let n = s.len().min(text.len() - at);
    text[at..at + n].copy_from_slice(&s[..n]);
    at + n
}

// Writes n in decimal digits.
pub fn put_decimal(text: &mut [u8], at: usize, n: u64) -> usize
    ensures { Wrote at (decimal_text n) text.old result text.new }
{
    let mut digits = [0u8; 20];
    let k = io::decimal(n, &mut digits);
    put(text, at, &digits[..k])
}

// Writes s, and n in decimal digits.
pub fn put_number(text: &mut [u8], at: usize, s: &[u8], n: u64) -> usize
    ensures { Wrote at (s.now ++ decimal_text n) text.old result text.new }
{
    let next = put(text, at, s);
    put_decimal(text, next, n)
}

// Writes an id's name.
pub fn put_name(text: &mut [u8], at: usize, form: Form, id: u64) -> usize
    ensures { Wrote at (name_of form id) text.old result text.new }
{
    if 16 <= text.len() && at <= text.len() - 16 {
        return tokens::put_name(form, text, at, id);
    }
    let mut name = [0u8; 16];
    let k = tokens::put_name(form, &mut name, 0, id);
    put(text, at, &name[..k])
}

// Writes a space and an id's name.
fn put_id(text: &mut [u8], at: usize, form: Form, id: u64) -> usize
    ensures { Wrote at (id_text form id) text.old result text.new }
{
    let n = put(text, at, b" ");
    put_name(text, n, form, id)
}

// Writes the names of the ids, a space before each.
pub fn put_ids(text: &mut [u8], at: usize, form: Form, ids: &[u64]) -> usize
    ensures { Wrote at (ids_text form ids.now) text.old result text.new }
{
    let mut n = at;
    for id in ids {
        n = put_id(text, n, form, *id);
    }
    n
}

// The word for what is wrong with a line.
#[tactic(auto, unfolding(crate::specs::Write::fault_text, text::specs::Ascii::ascii))]
fn word(f: Fault) -> &'static [u8]
    ensures { result.now ≡ fault_text f }
{
    match f {
        Fault::UnknownKind => b"unknown-kind",
        Fault::UnknownRegion => b"unknown-region",
        Fault::UnknownEngine => b"unknown-engine",
        Fault::MissingField => b"missing-field",
        Fault::ExtraField => b"extra-field",
        Fault::RepeatedOption => b"repeated-option",
        Fault::NotANumber => b"not-a-number",
        Fault::TooFewDigits => b"too-few-digits",
        Fault::TooManyDigits => b"too-many-digits",
        Fault::TooLarge => b"too-large",
        Fault::BadByte => b"bad-byte",
        Fault::LineTooLong => b"line-too-long",
        Fault::OutsideDomain => b"outside-domain",
        Fault::ReadFailed => b"read-failed",
    }
}

// The answer to a line that asks nothing that can be answered: `error LINE-NUMBER WORD`.
pub fn put_error(text: &mut [u8], line: u64, f: Fault) -> usize
    ensures { Wrote 0 (error_text line f) text.old result text.new }
{
    let a = put_number(text, 0, b"error ", line);
    let b = put(text, a, b" ");
    let c = put(text, b, word(f));
    put(text, c, b"\n")
}

// The answer to a request that is refused: `refused NUMBER`.
pub fn put_refused(text: &mut [u8], number: u64) -> usize
    ensures { Wrote 0 (refused_text number) text.old result text.new }
{
    let a = put_number(text, 0, b"refused ", number);
    put(text, a, b"\n")
}

// The answer to a request to which two engines gave different answers: `disagree`.
pub fn put_disagree(text: &mut [u8]) -> usize
    ensures { Wrote 0 disagree_text text.old result text.new }
{
    put(text, 0, b"disagree\n")
}

// What is written after the last answer: `end ANSWERED`.
pub fn put_end(text: &mut [u8], answered: u64) -> usize
    ensures { Wrote 0 (end_text answered) text.old result text.new }
{
    let a = put_number(text, 0, b"end ", answered);
    put(text, a, b"\n")
}

// Writes how many ids there are, their names, and the line's end.
pub fn put_counted(text: &mut [u8], at: usize, form: Form, ids: &[u64]) -> usize
    ensures { Wrote at (counted_text form ids.now) text.old result text.new }
{
    let a = put_decimal(text, at, ids.len() as u64);
    let b = put_ids(text, a, form, ids);
    put(text, b, b"\n")
}

// Writes six totals, a space before each.
pub fn put_totals(text: &mut [u8], at: usize, t: Totals) -> usize
    ensures { Wrote at (totals_text t) text.old result text.new }
{
    let mut n = at;
    for place in 0..6 {
        n = put_number(text, n, b" ", t.get(place));
    }
    n
}

// The answer to a request that is met: `ok STEPS ASIDE0 .. ASIDE5 COUNT ID...`.
pub fn put_ok(text: &mut [u8], form: Form, steps: u64, aside: Totals, ids: &[u64]) -> usize
    ensures { Wrote 0 (ok_text form steps aside ids.now) text.old result text.new }
{
    let a = put_number(text, 0, b"ok ", steps);
    let b = put_totals(text, a, aside);
    let c = put(text, b, b" ");
    put_counted(text, c, form, ids)
}

// The answer to a question about a list: `ok COUNT ID...`.
pub fn put_list(text: &mut [u8], form: Form, ids: &[u64]) -> usize
    ensures { Wrote 0 (list_text form ids.now) text.old result text.new }
{
    let a = put(text, 0, b"ok ");
    put_counted(text, a, form, ids)
}
