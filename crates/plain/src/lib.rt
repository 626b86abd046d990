// The plain queue: records as a simple list in lent memory, in whatever order they came. A new one is written at the end; the one that goes first is found by
// looking through all of the list, and the last record is moved to its place. docs/PLAIN.md follows it on paper.
// `m` is all of the memory and n how many records stand in it, since the next one goes behind them.
#![tactic(auto)]

ghost use Rattle.std.specs.Prelude.{◌≡◌, ◌<◌, ◌≤◌};
ghost use Rattle.records.specs.Records.{get_r, put_r, cap_r};
ghost use Rattle.plain.specs.Plain.{least_r, take_r};

use records::Rec;

// Writes r behind the list of the first n records.
pub fn add(m: &mut [u64], n: usize, r: Rec)
    requires { n < cap_r m.old }
    ensures { m.new ≡ put_r m.old n r }
{
    records::put(m, n, r);
}

// The place of the record that goes first, of those at places 0 to n: the best so far, until one goes before it.
fn least(m: &[u64], n: usize) -> usize
    requires { n < cap_r m.now }
    ensures value { result ≡ least_r m.now n }
    ensures upper_bound { result ≤ n }
{
    let mut best = 0;
    for i in 1..n + 1 {
        if records::get(m, i).goes_first(records::get(m, best)) {
            best = i;
        }
    }
    best
}

// Takes the one that goes first of the first n + 1 records; the last one is moved to its place. The last one's old words, from 4n on, stay as they are.
pub fn take(m: &mut [u64], n: usize) -> Rec
    requires { n < cap_r m.old }
    ensures value { result ≡ get_r m.old (least_r m.old n) }
    ensures m_after { m.new ≡ take_r m.old n }
{
    let at = least(m, n);
    let first = records::get(m, at);
    let last = records::get(m, n);
    records::put(m, at, last);
    first
}
