// A line of `cover`, answered: what it asks is asked of the coverer, whatever its kind, by the engines that it names, and the answer is written.
// What is lent to answer with, the words, the memory, the output and the page, goes side by side: the contract speaks of each.
#![tactic(auto)]

mod line;

ghost use Rattle.std.specs.Prelude.{true, ◌≡◌, length, ◌+◌, ◌*◌, ◌≤◌};
ghost use Rattle.covering.specs.Covering.{values_told, Answered};
ghost use Rattle.region.specs.Region.{area_of};
ghost use Rattle.replies.specs.Write.{Wrote};
ghost use Rattle.requests.specs.Line.{asked_with};
ghost use Rattle.requests.specs.Requests.{allowance_of, result_for, AnsweredIn, answer_text, tested_text, Replied};

use covering::Answer;
pub use line::{
    Asked, Options, Shape, cap_of, form_of, read_asked, read_cap, read_cell, read_coverer,
    read_options, read_region,
};
use refusal::Refusal;
use region::Region;
use selftest::Tested;
use tokens::Form;

// The allowance as a u32; a number that none holds allows as much as any.
#[tactic(auto, unfolding(crate::specs::Requests::allowance_of))]
pub fn allowance_of(n: u64) -> u32
    ensures { result ≡ allowance_of n }
{
    n.min(4294967295) as u32
}

// Answers a request for its region, and with the working memory and the output that are lent: their lengths are those that it is answered for.
fn answer_run(q: Asked, g: Region<'_>, mem: &mut [u64], out: &mut [u64]) -> Tested
    ensures { Answered (result_for (asked_with q (area_of g.entry)) (length mem.old) (length out.old)) result.answer mem.old mem.new out.old out.new × (result.agree ≡ true) }
{
    selftest::respond(
        q.engines,
        q.kind,
        q.coverer,
        g,
        allowance_of(q.allowance),
        mem,
        out,
    )
}

// Answers a request with as much of the memory and of the output as it asks for.
fn answer_in(q: Asked, g: Region<'_>, mem: &mut [u64], out: &mut [u64]) -> Tested
    ensures { AnsweredIn (asked_with q (area_of g.entry)) result.answer mem.old mem.new out.old out.new × (result.agree ≡ true) }
{
    let m = (q.mem as usize).min(mem.len());
    let o = (q.out as usize).min(out.len());
    answer_run(q, g, &mut mem[..m], &mut out[..o])
}

// Writes an answer, with the ids that stand in the output's first places.
fn put_answer(form: Form, a: Result<Answer, Refusal>, out: &[u64], page: &mut [u8]) -> usize
    requires { (values_told a).count ≤ length out.now }
    ensures { Wrote 0 (answer_text form a out.now) page.old result page.new }
{
    match a {
        Ok(values) => {
            let aside = values.aside;
            replies::put_ok(page, form, values.steps as u64, aside, &out[..values.count])
        }
        Err(refusal) => replies::put_refused(page, refusal.number()),
    }
}

// Writes the answer of the engines that were asked, or `disagree` where they gave different ones. The engines are proved to agree, so no line is answered like that
// but by a fault of the machine.
fn put_tested(form: Form, t: Tested, out: &[u64], page: &mut [u8]) -> usize
    requires { (values_told t.answer).count ≤ length out.now }
    ensures { Wrote 0 (tested_text form t out.now) page.old result page.new }
{
    if t.agree {
        let a = t.answer;
        return put_answer(form, a, out, page);
    }
    replies::put_disagree(page)
}

// The answer to a line of that number, whole, from the first byte of the page on, and how long it is: nothing for a line that asks nothing. The page has
// room for as many ids as the output has places; the ids of a list are read into the words that are lent.
pub fn answer(
    line: &[u8],
    number: u64,
    words: &mut [u64],
    mem: &mut [u64],
    out: &mut [u64],
    page: &mut [u8],
) -> usize
    requires { 17 * length out.old + 256 ≤ length page.old }
    ensures { Replied number line.now words.old words.new mem.old mem.new out.old out.new page.old result page.new }
{
    if text::is_silent(line) {
        return 0;
    }
    match read_asked(line, words) {
        Ok(q) => {
            let t = answer_in(q, q.shape.region(words), mem, out);
            put_tested(q.form, t, out, page)
        }
        Err(fault) => replies::put_error(page, number, fault),
    }
}
