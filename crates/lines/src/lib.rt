// Any line of `cover`, answered: a question about a list, `ranges COUNT ID... [options]` or `cells COUNT FIRST LAST... [options]`, is asked of `ranges`, one
// about two lists, `union|common|difference COUNT ID... COUNT ID... [options]`, of `sets`, any other line of `requests`.
#![tactic(auto)]

ghost use Rattle.std.specs.Prelude.{◌≡◌, ◌+◌, ◌*◌, ◌≤◌, length, take, drop};
ghost use Rattle.text.specs.Text.{ReadList};
ghost use Rattle.ranges.specs.Ranges.{words_of, Answered};
ghost use Rattle.replies.specs.Write.{Wrote};
ghost use Rattle.lines.specs.Lines.{word_after, asks_list, second_after, lists_after, ReadLists, ReadQuestion, result_for, AnsweredIn, answer_text, ListReplied, Replied};

use refusal::Refusal;
use sets::Op;
use text::{Fault, Read};
use tokens::Form;

// What is asked about lists.
#[derive(Clone, Copy)]
enum Asks {
    Ranges,
    Cells,
    Sets(Op),
}

// Lists in the first of the words that are lent: how many the first has, and how many both have.
#[derive(Clone, Copy)]
struct Extent {
    first: usize,
    both: usize,
}

// A question: what is asked, about which lists; how many places of output may be filled; and how ids are to be written.
#[derive(Clone, Copy)]
struct Asked {
    asks: Asks,
    lists: Extent,
    out: u64,
    form: Form,
}

// What a line asks about lists.
#[tactic(auto, unfolding(crate::specs::Lines::word_after, text::specs::Ascii::ascii))]
fn read_word(line: &[u8], at: usize) -> Result<Read<Asks>, Fault>
    ensures { result ≡ word_after line.now at }
{
    text::read_choice(
        line,
        at,
        b"ranges cells union common difference",
        &[
            Asks::Ranges,
            Asks::Cells,
            Asks::Sets(Op::Union),
            Asks::Sets(Op::Common),
            Asks::Sets(Op::Difference),
        ],
        Fault::UnknownKind,
    )
}

// Whether a line asks about lists: its first word says so.
#[tactic(auto, unfolding(crate::specs::Lines::asks_list))]
fn asks_list(line: &[u8]) -> bool
    ensures { result ≡ asks_list line.now }
{
    read_word(line, 0).is_ok()
}

// The second list, into the words that are lent; none where one alone is asked about.
#[tactic(auto, unfolding(crate::specs::Lines::second_after, text::specs::Text::words_with))]
fn read_second(line: &[u8], at: usize, asks: Asks, words: &mut [u64]) -> Result<Read<u64>, Fault>
    ensures { ReadList (second_after asks (length words.old) line.now at) result words.old words.new }
{
    match asks {
        Asks::Sets(_) => text::read_list(line, at, words),
        Asks::Ranges | Asks::Cells => Ok(Read {
            value: 0,
            after: at,
        }),
    }
}

// The lists, one behind the other into the words that are lent.
fn read_lists(line: &[u8], at: usize, asks: Asks, words: &mut [u64]) -> Result<Read<Extent>, Fault>
    ensures { ReadLists (lists_after asks (length words.old) line.now at) result words.old words.new }
{
    let a = text::read_list(line, at, words)?;
    let first = a.value as usize;
    let b = read_second(line, a.after, asks, &mut words[first..])?;
    let value = Extent {
        first,
        both: first + b.value as usize,
    };
    Ok(Read {
        value,
        after: b.after,
    })
}

// The question that a line is, its lists read into the words that are lent.
#[tactic(auto, unfolding(crate::specs::Lines::question_of, crate::specs::Lines::asked_first, crate::specs::Lines::lists_of, text::specs::Text::words_with))]
fn read_question(line: &[u8], words: &mut [u64]) -> Result<Asked, Fault>
    ensures { ReadQuestion (length words.old) line.now result words.old words.new }
{
    let start = text::read_start(line)?;
    let word = read_word(line, start)?;
    let lists = read_lists(line, word.after, word.value, words)?;
    let options = requests::read_options(line, lists.after)?;
    text::read_end(line, options.after)?;
    let o = options.value;
    Ok(Asked {
        asks: word.value,
        lists: lists.value,
        out: o.out.unwrap_or(65536),
        form: requests::form_of(o.tokens.unwrap_or(0)),
    })
}

// Answers with the output that is lent: its length is that which it is answered for.
#[tactic(auto, unfolding(crate::specs::Lines::result_for))]
fn answer_for(asks: Asks, a: &[u64], b: &[u64], out: &mut [u64]) -> Result<usize, Refusal>
    ensures { Answered (result_for asks a.now b.now (length out.old)) result out.old out.new }
{
    match asks {
        Asks::Ranges => ranges::pairs(a, out),
        Asks::Cells => ranges::cells(a, out),
        Asks::Sets(op) => sets::combine(op, a, b, out),
    }
}

// Answers with as much of the output as is asked for; of the lists' words so many are the first's.
fn answer_in(
    asks: Asks,
    lists: &[u64],
    first: usize,
    most: u64,
    out: &mut [u64],
) -> Result<usize, Refusal>
    requires { first ≤ length lists.now }
    ensures { AnsweredIn asks (take first lists.now) (drop first lists.now) most result out.old out.new }
{
    let o = (most as usize).min(out.len());
    answer_for(asks, &lists[..first], &lists[first..], &mut out[..o])
}

// Writes an answer, with the numbers that stand in the output's first places.
fn put_answer(form: Form, a: Result<usize, Refusal>, out: &[u64], page: &mut [u8]) -> usize
    requires { words_of a ≤ length out.now }
    ensures { Wrote 0 (answer_text form a out.now) page.old result page.new }
{
    match a {
        Ok(count) => replies::put_list(page, form, &out[..count]),
        Err(refusal) => replies::put_refused(page, refusal.number()),
    }
}

// The answer to a line that asks about lists.
fn answer_list(
    line: &[u8],
    number: u64,
    words: &mut [u64],
    out: &mut [u64],
    page: &mut [u8],
) -> usize
    requires { 17 * length out.old + 256 ≤ length page.old }
    ensures { ListReplied number line.now words.old words.new out.old out.new page.old result page.new }
{
    match read_question(line, words) {
        Ok(q) => {
            let a = answer_in(q.asks, &words[..q.lists.both], q.lists.first, q.out, out);
            put_answer(q.form, a, out, page)
        }
        Err(fault) => replies::put_error(page, number, fault),
    }
}

// The answer to a line of that number, whole, from the first byte of the page on, and how long it is: nothing for a line that asks nothing. The page has
// room for as many ids as the output has places; lists are read into the words that are lent.
pub fn answer(
    line: &[u8],
    number: u64,
    words: &mut [u64],
    mem: &mut [u64],
    out: &mut [u64],
    page: &mut [u8],
) -> usize
    requires { 17 * length out.old + 256 ≤ length page.old }
    ensures { Replied number line.now words.old words.new mem.old mem.new out.old out.new page.old result page.new }
{
    if asks_list(line) {
        return answer_list(line, number, words, out, page);
    }
    requests::answer(line, number, words, mem, out, page)
}
