// An id's name, its sixteen hexadecimal digits or its token, and lists of ids as texts with a name a line: written, and read back. Each way takes one pass that
// looks and one that writes: what is refused leaves the output as it was, so nothing is written before all is seen. No memory is asked for.
// The lent buffer, the place and the form go side by side: a struct of them would be made and taken apart at each call, and what is promised is of the whole buffer.
#![tactic(auto)]

ghost use Rattle.std.specs.Prelude.{◌≡◌, ◌+◌, ◌^◌, ◌≤◌, ◌<◌, None, length};
ghost use Rattle.std.proofs.lemmas.List.Edits.{sets};
ghost use Rattle.io.specs.Digits.{last_digits, hex_digit_ascii};
ghost use Rattle.tokens.specs.Tokens.{name_of, name_line, lines_of, ids_of, write_result, read_result, length_of, Answered, first_bad};
ghost use Rattle.tokens.specs.Steps.{of_digits, FirstLine};

use refusal::Refusal;

// What names an id: its sixteen digits, or its token, which leaves out the zeros at their end.
#[derive(Clone, Copy)]
pub enum Form {
    Digits,
    Token,
}

// ---- names

// The digit of a number below 16, by a table: a choice between the two runs of digits takes up to three times as long.
fn glyph(d: u64) -> u8
    requires { d < 16 }
    ensures { result ≡ hex_digit_ascii d }
{
    b"0123456789abcdef"[d as usize]
}

// Writes the last k hexadecimal digits of n, from the last on.
fn put_digits(text: &mut [u8], at: usize, k: usize, n: u64)
    requires { at + k ≤ length text.old }
    ensures { text.new ≡ sets text.old at (last_digits 16 k n) }
{
    let mut rest = n;
    for left in (0..k).rev() {
        text[at + left] = glyph(rest % 16);
        rest /= 16;
    }
}

// How many digits an id's name has: at most sixteen.
fn name_length(form: Form, id: u64) -> usize
    ensures { (result ≡ length (name_of form id)) × (result ≤ 16) }
{
    match form {
        Form::Digits => 16,
        Form::Token => 16 - (id.trailing_zeros() >> 2) as usize,
    }
}

// Writes an id's name, and answers the place after it.
pub fn put_name(form: Form, text: &mut [u8], at: usize, id: u64) -> usize
    requires { at + length (name_of form id) ≤ length text.old }
    ensures { (result ≡ at + length (name_of form id)) × (text.new ≡ sets text.old at (name_of form id)) }
{
    let n = name_length(form, id);
    if n == 0 {
        return at;
    }
    put_digits(text, at, n, id >> (4 * (16 - n)));
    at + n
}

// ---- writing

// Writes an id's line, and answers the place after it.
fn put_line(form: Form, text: &mut [u8], at: usize, id: u64) -> usize
    requires { at + length (name_line form id) ≤ length text.old }
    ensures { (result ≡ at + length (name_line form id)) × (text.new ≡ sets text.old at (name_line form id)) }
{
    let end = put_name(form, text, at, id);
    text[end] = b'\n';
    end + 1
}

// One look at the ids, at all of them, with what their lines need: a sum that does not fit is over any room.
fn look_ids(form: Form, ids: &[u64], room: usize) -> Result<usize, Refusal>
    requires { room + 1 < 2 ^ 64 }
    ensures { result ≡ length_of (write_result form ids.now room) }
{
    let mut size: usize = 0;
    for (i, id) in ids.iter().enumerate() {
        if !cellid::is_valid(*id) {
            return Err(Refusal::Malformed((i + 1) as u64));
        }
        size = size.saturating_add(name_length(form, *id) + 1);
    }
    if size <= room {
        Ok(size)
    } else {
        Err(Refusal::NamesTooLong)
    }
}

// Writes the lines of the ids, and answers how many bytes they are.
fn put_lines(form: Form, ids: &[u64], text: &mut [u8]) -> usize
    requires { length (lines_of form ids.now) ≤ length text.old }
    ensures { (result ≡ length (lines_of form ids.now)) × (text.new ≡ sets text.old 0 (lines_of form ids.now)) }
{
    let mut at = 0;
    for id in ids {
        at = put_line(form, text, at, *id);
    }
    at
}

// Writes a list as a text, a name a line, and answers how many bytes it is. Refusals: 11 an id that is no cell, with its number from 1; 12 more bytes than the
// text has room for.
pub fn write(form: Form, ids: &[u64], text: &mut [u8]) -> Result<usize, Refusal>
    ensures { Answered (write_result form ids.now (length text.old)) result text.old text.new }
{
    look_ids(form, ids, text.len())?;
    Ok(put_lines(form, ids, text))
}

// ---- reading

// The number of a name of n digits that spell a value, where such digits are a name.
fn of_digits(form: Form, n: usize, value: u64) -> Option<u64>
    requires { (n ≤ 16) × (value < 16 ^ n) }
    ensures { result ≡ of_digits form n value }
{
    match form {
        Form::Digits => if n == 16 { Some(value) } else { None },
        Form::Token => if value % 16 == 0 {
            None
        } else {
            Some(value << (4 * (16 - n)))
        },
    }
}

// A line that is a name: its number, and the place after it.
#[derive(Clone, Copy)]
struct Line {
    id: u64,
    next: usize,
}

// The first line from `at` on, in one pass: its digits, sixteen at most, and then a newline.
fn read_line(form: Form, text: &[u8], at: usize) -> Option<Line>
    requires { at < length text.now }
    ensures { FirstLine form text.now at result }
{
    let name = text::read_digits(text, at, 16);
    let end = name.after;
    if end < text.len() && text[end] == b'\n' {
        let id = of_digits(form, end - at, name.value)?;
        return Some(Line { id, next: end + 1 });
    }
    None
}

// One look at the lines, at all of them: how many there are. Here and in `put_ids` the loop is a `while`: each line tells where the next one begins.
fn look_lines(form: Form, text: &[u8], room: usize) -> Result<usize, Refusal>
    ensures { result ≡ length_of (read_result form text.now room) }
{
    let mut k = 0;
    let mut at = 0;
    while at < text.len() {
        match read_line(form, text, at) {
            Some(line) if cellid::is_valid(line.id) => at = line.next,
            _ => return Err(Refusal::Malformed((k + 1) as u64)),
        }
        k += 1;
    }
    if k <= room {
        Ok(k)
    } else {
        Err(Refusal::NamesTooLong)
    }
}

// Writes the ids of the lines, and answers how many they are.
fn put_ids(form: Form, text: &[u8], ids: &mut [u64]) -> usize
    requires { (first_bad 0 (ids_of form text.now) ≡ None) × (length (ids_of form text.now) ≤ length ids.old) }
    ensures { (result ≡ length (ids_of form text.now)) × (ids.new ≡ sets ids.old 0 (ids_of form text.now)) }
{
    let mut k = 0;
    let mut at = 0;
    while at < text.len() {
        let line = read_line(form, text, at).unwrap();
        ids[k] = line.id;
        k += 1;
        at = line.next;
    }
    k
}

// Reads a text with a name a line, and answers how many there are. Refusals: 11 a malformed line, or one that names no cell, with its number from 1; 12 more
// lines than there are places.
pub fn read(form: Form, text: &[u8], ids: &mut [u64]) -> Result<usize, Refusal>
    ensures { Answered (read_result form text.now (length ids.old)) result ids.old ids.new }
{
    look_lines(form, text, ids.len())?;
    Ok(put_ids(form, text, ids))
}
