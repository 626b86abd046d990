// The quick queue: records as a binary heap in lent memory, the one that goes first at place 0. `m` is all of that memory and n how many records stand in it,
// since the next one goes behind them.
#![tactic(auto)]

ghost use Rattle.std.specs.Prelude.{◌≡◌, ◌+◌, ◌*◌, ◌<◌, ◌≤◌};
ghost use Rattle.records.specs.Records.{get_r, cap_r};
ghost use Rattle.heap.specs.Heap.{push_r, pop_r, lesser_r};

use records::Rec;

// Adds r to the heap of the first n records. It moves up past at most one record for each doubling of n.
pub fn push(m: &mut [u64], n: usize, r: Rec)
    requires { n < cap_r m.old }
    ensures { m.new ≡ push_r m.old n r }
{
    let mut i = n;
    // Up the tree, place above place, and not one after another.
    while 0 < i {
        let p = (i - 1) / 2;
        let x = records::get(m, p);
        if r.goes_first(x) {
            records::put(m, i, x);
            i = p;
        } else {
            break;
        }
    }
    records::put(m, i, r);
}

// A record and its place.
#[derive(Clone, Copy)]
struct Placed {
    at: usize,
    record: Rec,
}

// The lesser of the records under place i, of which there is at least one, in a heap of n.
fn lesser(m: &[u64], n: usize, i: usize) -> Placed
    requires i_bound { 2 * i + 1 < n }
    requires n_bound { n ≤ cap_r m.now }
    ensures { (result.at ≡ lesser_r m.now n i) × (result.record ≡ get_r m.now result.at) × (i < result.at) × (result.at < n) }
{
    let l = 2 * i + 1;
    let r = 2 * i + 2;
    let x = records::get(m, l);
    if r < n {
        let y = records::get(m, r);
        if y.goes_first(x) {
            return Placed { at: r, record: y };
        }
    }
    Placed { at: l, record: x }
}

// Takes the least of the first n + 1 records, which stands first. The last one moves down from there, two comparisons a place.
// Its old words, from 4n on, stay as they are.
pub fn pop(m: &mut [u64], n: usize) -> Rec
    requires { n < cap_r m.old }
    ensures value { result ≡ get_r m.old 0 }
    ensures m_after { m.new ≡ pop_r m.old n }
{
    let least = records::get(m, 0);
    let a = records::get(m, n);
    let mut i = 0;
    // Down the tree, to the lesser of the two below.
    while i < n / 2 {
        let c = lesser(m, n, i);
        let x = c.record;
        if x.goes_first(a) {
            records::put(m, i, x);
            i = c.at;
        } else {
            break;
        }
    }
    records::put(m, i, a);
    least
}
