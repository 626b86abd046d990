// Fields and numbers of a line of text: what the programs read requests with.
// A line is fields parted by blanks. What is read comes with the place after it, or else with what is wrong: the first fault from the left. A number over its
// limit is told and never wraps.
#![tactic(auto)]

ghost use Rattle.std.specs.Prelude.{◌≡◌, ◌+◌, ◌*◌, ◌<◌, ◌≤◌, max, length, drop, nat_lt, ◌==◌, position, IfOk};
ghost use Rattle.std.specs.Option.{ForSome};
ghost use Rattle.text.specs.Text.{digit_of, all_digits, value_from, limited, number_as, number_in, is_blank, leading, field_at, field_no, choice_of, Spells, Stopped, field_as, number_after, numbers_after, array_after, list_after, ReadList, choice_after, end_after, is_plain, all_plain, is_silent, start_of};

use std::ops::Range;

// What is wrong with a line.
#[derive(Clone, Copy)]
pub enum Fault {
    UnknownKind,
    UnknownRegion,
    UnknownEngine,
    MissingField,
    ExtraField,
    RepeatedOption,
    NotANumber,
    TooFewDigits,
    TooManyDigits,
    TooLarge,
    BadByte,
    LineTooLong,
    OutsideDomain,
    ReadFailed,
}

// How a number is written: decimal, in one to twenty digits, or hexadecimal, in sixteen.
#[derive(Clone, Copy)]
pub enum Base {
    Ten,
    Sixteen,
}

// What was read, and the place after it. A line and a place in it go into each reader one by one: a reader with the place in it would have to promise where it
// stands after a fault, too.
#[derive(Clone, Copy)]
pub struct Read<T> {
    pub value: T,
    pub after: usize,
}

// ---- numbers

// The value of a digit, 0 to 15; 16 for any other byte. A byte before `0` or `a` wraps to a large number, so one test tells each run of digits: reading ids by a match on
// ranges of bytes takes more than twice as long. Not an Option: 16 is no digit of any base, so that one comparison with the base says all.
#[tactic(auto, unfolding(crate::specs::Text::digit_of))]
fn digit(b: u8) -> u64
    ensures { result ≡ digit_of b }
{
    let n = (b as u64).wrapping_sub(48);
    if n < 10 {
        return n;
    }
    let m = n.wrapping_sub(49);
    if m < 6 {
        return m + 10;
    }
    16
}

// Whether every byte is a digit of the base.
fn all_digits(s: &[u8], base: u64) -> bool
    ensures { result ≡ all_digits base s.now }
{
    s.iter().all(|b| digit(*b) < base)
}

// Whether the number with one digit more is over the limit: tested before the product, which may not fit.
fn is_over(number: u64, base: u64, digit: u64, limit: u64) -> bool
    requires { 0 < base }
    ensures { result ≡ nat_lt limit (number * base + digit) }
{
    limit < digit || (limit - digit) / base < number
}

// The value of a run of digits, where it is within the limit.
fn value(s: &[u8], base: u64, limit: u64) -> Result<u64, Fault>
    requires { 0 < base }
    ensures value { result ≡ limited limit (value_from base 0 s.now) }
    ensures within { IfOk result (λ n. n ≤ limit) }
{
    let mut number: u64 = 0;
    for b in s {
        let d = digit(*b);
        if is_over(number, base, d, limit) {
            return Err(Fault::TooLarge);
        }
        number = number * base + d;
    }
    Ok(number)
}

// The number that s spells in the base: `fewest` to `most` digits, at most `limit`. One pass for the digits, one for the value. What a base asks for stands in
// `read_bytes` and `read_number` alone.
fn number(s: &[u8], base: u64, fewest: usize, most: usize, limit: u64) -> Result<u64, Fault>
    requires { 0 < base }
    ensures value { result ≡ number_as base fewest most limit s.now }
    ensures within { IfOk result (λ n. n ≤ limit) }
{
    if s.is_empty() || !all_digits(s, base) {
        return Err(Fault::NotANumber);
    }
    if s.len() < fewest {
        return Err(Fault::TooFewDigits);
    }
    if most < s.len() {
        return Err(Fault::TooManyDigits);
    }
    value(s, base, limit)
}

// The number, at most `limit`, that the bytes of a field or of a part of it spell.
pub fn read_bytes(s: &[u8], base: Base, limit: u64) -> Result<u64, Fault>
    ensures { result ≡ number_in base limit s.now }
{
    match base {
        Base::Ten => number(s, 10, 1, 20, limit),
        Base::Sixteen => number(s, 16, 16, 16, limit),
    }
}

// ---- fields

// Whether a byte parts fields: a space, a tab or a carriage return.
fn is_blank(b: u8) -> bool
    ensures { result ≡ is_blank b }
{
    b == b' ' || b == b'\t' || b == b'\r'
}

// The place of the first byte from `at` on that is a blank, or that is none. By an index, since the place may lie behind the line.
fn past(line: &[u8], at: usize, blank: bool) -> usize
    ensures { (result ≡ at + leading blank (drop at line.now)) × (at ≤ result) × (result ≤ max at (length line.now)) }
{
    for i in at..line.len() {
        if is_blank(line[i]) != blank {
            return i;
        }
    }
    line.len().max(at)
}

// The first field of the line from `at` on, if it has one more.
pub fn read_field(line: &[u8], at: usize) -> Option<Range<usize>>
    ensures value { result ≡ field_at line.now at }
    ensures inside { ForSome result (λ f. (f.start < f.end) × (f.end ≤ length line.now)) }
{
    let start = past(line, at, true);
    let end = past(line, start, false);
    if start < end { Some(start..end) } else { None }
}

// The k-th field of the line, counted from 0, if it has so many.
pub fn field_no(line: &[u8], k: u64) -> Option<Range<usize>>
    ensures value { result ≡ field_no k line.now 0 }
    ensures inside { ForSome result (λ f. (f.start < f.end) × (f.end ≤ length line.now)) }
{
    let mut at = 0;
    for _ in 0..k {
        at = read_field(line, at)?.end;
    }
    read_field(line, at)
}

// The place of the first byte that is b.
pub fn find(s: &[u8], b: u8) -> Option<usize>
    ensures value { result ≡ position (λ x. x == b) s.now }
    ensures within { ForSome result (λ i. i < length s.now) }
{
    s.iter().position(|x| *x == b)
}

// What a word stands for: each of the choices for one of some words parted by blanks, in their order.
pub fn choice_of<T: Copy>(word: &[u8], words: &[u8], choices: &[T]) -> Option<T>
    ensures { result ≡ choice_of choices.now words.now 0 word.now }
{
    let mut at = 0;
    for choice in choices {
        let field = read_field(words, at)?;
        if &words[field.start..field.end] == word {
            return Some(*choice);
        }
        at = field.end;
    }
    None
}

// ---- one part of a line after another

// The digits of the base from `start` on, sixteen at most: no number of so many is too large. The place after them, and the number that they spell.
pub fn read_digits(line: &[u8], start: usize, base: u64) -> Read<u64>
    requires { (base ≤ 16) × (start ≤ length line.now) }
    ensures { Spells base line.now start result.after result.value × Stopped base line.now start result.after }
{
    let stop = start.saturating_add(16).min(line.len());
    let mut value = 0;
    for i in start..stop {
        let d = digit(line[i]);
        if base <= d {
            return Read { value, after: i };
        }
        value = value * base + d;
    }
    Read { value, after: stop }
}

// The number that the next field from `at` on spells in the base. Where it has sixteen digits at most and nothing is wrong, one pass tells its end and its
// value.
fn read_at(
    line: &[u8],
    at: usize,
    base: u64,
    fewest: usize,
    most: usize,
    limit: u64,
) -> Result<Read<u64>, Fault>
    requires { (0 < base) × (base ≤ 16) × (0 < fewest) × (16 ≤ most) }
    ensures value { result ≡ field_as (number_as base fewest most limit) line.now at }
    ensures within { IfOk result (λ n. n.value ≤ limit) }
{
    let start = past(line, at, true);
    if start < line.len() {
        let digits = read_digits(line, start, base);
        let end = digits.after;
        if fewest <= end - start && past(line, end, false) == end && digits.value <= limit {
            return Ok(digits);
        }
    }
    let field = read_field(line, at).ok_or(Fault::MissingField)?;
    let value = number(&line[field.start..field.end], base, fewest, most, limit)?;
    Ok(Read {
        value,
        after: field.end,
    })
}

// The number, at most `limit`, that the next field is.
pub fn read_number(line: &[u8], at: usize, base: Base, limit: u64) -> Result<Read<u64>, Fault>
    ensures value { result ≡ number_after base limit line.now at }
    ensures within { IfOk result (λ n. n.value ≤ limit) }
{
    match base {
        Base::Ten => read_at(line, at, 10, 1, 20, limit),
        Base::Sixteen => read_at(line, at, 16, 16, 16, limit),
    }
}

// Fills `values` with the numbers of the next fields, and answers the place after them. From a fault on the values are 0: the index tells which are left.
pub fn read_numbers(line: &[u8], at: usize, base: Base, values: &mut [u64]) -> Result<usize, Fault>
    ensures { (result ≡ (numbers_after base (length values.old) line.now at).after) × (values.new ≡ (numbers_after base (length values.old) line.now at).values) }
{
    let mut after = at;
    for i in 0..values.len() {
        match read_number(line, after, base, u64::MAX) {
            Ok(n) => {
                values[i] = n.value;
                after = n.after;
            }
            Err(fault) => {
                values[i..].fill(0);
                return Err(fault);
            }
        }
    }
    Ok(after)
}

// So many numbers as the array has places.
pub fn read_array<const N: usize>(
    line: &[u8],
    at: usize,
    base: Base,
) -> Result<Read<[u64; N]>, Fault>
    ensures { result ≡ array_after N base line.now at }
{
    let mut value = [0; N];
    let after = read_numbers(line, at, base, &mut value)?;
    Ok(Read { value, after })
}

// A list `COUNT ID...` of at most as many ids as `ids` has places, into the first of them: how many there are, and the place after them. From a fault on the ids
// are 0.
pub fn read_list(line: &[u8], at: usize, ids: &mut [u64]) -> Result<Read<u64>, Fault>
    ensures { ReadList (list_after (length ids.old) line.now at) result ids.old ids.new }
{
    let count = read_number(line, at, Base::Ten, ids.len() as u64)?;
    let after = read_numbers(
        line,
        count.after,
        Base::Sixteen,
        &mut ids[..count.value as usize],
    )?;
    Ok(Read {
        value: count.value,
        after,
    })
}

// Which of the choices the next field stands for, by their words; `fault` where it is none of these.
pub fn read_choice<T: Copy>(
    line: &[u8],
    at: usize,
    words: &[u8],
    choices: &[T],
    fault: Fault,
) -> Result<Read<T>, Fault>
    ensures { result ≡ choice_after words.now choices.now fault line.now at }
{
    let field = read_field(line, at).ok_or(Fault::MissingField)?;
    let value = choice_of(&line[field.start..field.end], words, choices).ok_or(fault)?;
    Ok(Read {
        value,
        after: field.end,
    })
}

// A fault, if a field stands after the place.
pub fn read_end(line: &[u8], at: usize) -> Result<(), Fault>
    ensures { result ≡ end_after line.now at }
{
    match read_field(line, at) {
        Some(_) => Err(Fault::ExtraField),
        None => Ok(()),
    }
}

// ---- whole lines

// Whether a byte is one of ASCII, and not 0.
fn is_plain(b: u8) -> bool
    ensures { result ≡ is_plain b }
{
    0 < b && b <= 127
}

// Whether every byte is one of ASCII, and none is 0. It looks at all of them, so that the compiler takes many at a time.
fn all_plain(line: &[u8]) -> bool
    ensures { result ≡ all_plain line.now }
{
    let mut plain = true;
    for b in line {
        plain = plain & is_plain(*b);
    }
    plain
}

// Whether the line asks nothing: it has no field, or begins with #.
pub fn is_silent(line: &[u8]) -> bool
    ensures { result ≡ is_silent line.now }
{
    let start = past(line, 0, true);
    (start == line.len() || line[0] == b'#') && all_plain(line)
}

// The line's beginning, if no byte of it is 0 or over 127.
pub fn read_start(line: &[u8]) -> Result<usize, Fault>
    ensures { result ≡ start_of line.now }
{
    if all_plain(line) {
        Ok(0)
    } else {
        Err(Fault::BadByte)
    }
}
