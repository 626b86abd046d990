// Lists of cells in lent memory: what a list may be, normalising in place, one cell widened, and lists laid over an output.
#![tactic(auto)]

ghost use Rattle.std.specs.Prelude.{◌≡◌, true, ◌+◌, ◌-◌, ◌*◌, ◌^◌, ◌≤◌, ◌<◌, length, get_or, take, drop, set};
ghost use Rattle.cellid.specs.CellId.{Cell, low_bit, holds};
ghost use Rattle.order.specs.Order.{All};
ghost use Rattle.cellunion.specs.CellUnion.{Normal, normalise, listed, is_list, up_one, is_four, clear_of, collapse, keep_cell};
ghost use Rattle.cellunion.specs.Memory.{zeros, normalised, laid, room_for, laid_over};
ghost use Rattle.cellunion.specs.Stack.{top_first, Topped, Next, Gives, PassAsks, PassDone, near_top};

// Whether an id may come next in a list, `last` the last leaf before it.
fn listed(last: u64, id: u64) -> bool
    ensures { result ≡ listed last id }
{
    cellid::is_valid(id) && last < cellid::range_min(id)
}

// Whether a list is valid, ascending and free of overlap.
pub fn is_valid(ids: &[u64]) -> bool
    ensures { result ≡ is_list ids.now }
{
    let mut last = 0;
    // A loop with an early end: each test needs the last leaf of the cell before.
    for &id in ids {
        if !listed(last, id) {
            return false;
        }
        last = cellid::range_max(id);
    }
    true
}

// All bits but the two that tell c from its siblings.
fn sibling_mask(c: u64) -> u64
    requires { Cell c }
    ensures { result ≡ (2 ^ 64 - 1) - 6 * low_bit c }
{
    let mask = cellid::lsb(c) << 1;
    !(mask + (mask << 1))
}

// Whether x, y, z and c, which ascend, are the four children of one cell: the exclusive or is a quick necessary test.
fn are_siblings(x: u64, y: u64, z: u64, c: u64) -> bool
    requires { Cell c × (x < y) × (y < z) × (z < c) }
    ensures { result ≡ is_four x y z c }
{
    // An early end: most words fail the quick test, and no mask is made for them.
    if x ^ y ^ z ^ c != 0 {
        return false;
    }
    let mask = sibling_mask(c);
    let should = c & mask;
    x & mask == should && y & mask == should && z & mask == should && 0 < cellid::level(c)
}

// In place, in lent memory: the first k words are the kept cells, a stack, and the words still to be read stand behind them in the same slice. So the
// functions down to `widen` take the memory and how many words of it are meant; a struct of the two would borrow the words that are read.

// How many of the first k are left without those inside c.
fn clear_of(mem: &[u64], k: usize, c: u64) -> usize
    requires { (k ≤ length mem.now) × (0 < c) }
    ensures { (result ≤ k) × (top_first result mem.now ≡ clear_of c (top_first k mem.now)) }
{
    // The stack is popped as long as its top lies inside.
    let mut left = k;
    while 0 < left && cellid::contains(c, mem[left - 1]) {
        left -= 1;
    }
    left
}

// Puts c on top of the first k, and as long as it completes four siblings their parent in their place.
fn collapse(mem: &mut [u64], k: usize, c: u64) -> usize
    requires { (k < length mem.old) × Topped (top_first k mem.old) c }
    ensures { Gives (collapse (top_first k mem.old) c) k mem.old mem.new result }
{
    // Three are popped a turn.
    let mut left = k;
    let mut top = c;
    while 3 <= left && are_siblings(mem[left - 3], mem[left - 2], mem[left - 1], top) {
        left -= 3;
        top = cellid::immediate_parent(top);
    }
    mem[left] = top;
    left + 1
}

// One more cell: nothing if the last kept holds it, else it goes on top of what does not lie in it.
fn keep(mem: &mut [u64], k: usize, c: u64) -> usize
    requires { (k < length mem.old) × Next (top_first k mem.old) c }
    ensures { Gives (keep_cell (top_first k mem.old) c) k mem.old mem.new result }
{
    if 0 < k && cellid::contains(mem[k - 1], c) {
        return k;
    }
    let left = clear_of(mem, k, c);
    collapse(mem, left, c)
}

// The pass over the first n words, which are sorted.
fn pass(mem: &mut [u64], n: usize) -> usize
    requires { PassAsks n mem.old 0 0 }
    ensures { PassDone n mem.old 0 0 mem.new result }
{
    let mut kept = 0;
    // An index: the words are moved within the slice.
    for i in 0..n {
        let c = mem[i];
        kept = keep(mem, kept, c);
    }
    kept
}

// Zeros the words from `from` to before `to`.
pub fn clear(mem: &mut [u64], from: usize, to: usize)
    requires { (from ≤ to) × (to ≤ length mem.old) }
    ensures { mem.new ≡ laid from (zeros (to - from)) mem.old }
{
    mem[from..to].fill(0);
}

// Normalises the first n words in place: sorts them, then one pass; the words that the normal list leaves over become zero.
// Gives the length of the normal list. The words may come in any order, repeat and overlap.
pub fn normalize(mem: &mut [u64], n: usize) -> usize
    requires { (n ≤ length mem.old) × All Cell (take n mem.old) }
    ensures { (result ≡ length (normalise (take n mem.old))) × (mem.new ≡ normalised n mem.old) }
{
    order::sort(&mut mem[..n]);
    let kept = pass(mem, n);
    clear(mem, kept, n);
    kept
}

// The parent; a face is its own.
fn above(c: u64) -> u64
    ensures { result ≡ up_one c }
{
    let level = cellid::level(c);
    if 0 < level {
        cellid::parent(c, level - 1)
    } else {
        cellid::parent(c, 0)
    }
}

// Whether id, behind all that is kept, can be a sibling of the last of the first k: it begins before that one's parent ends.
fn near(mem: &[u64], k: usize, id: u64) -> bool
    requires { (k ≤ length mem.now) × All Cell (top_first k mem.now) × (0 < id) }
    ensures { result ≡ near_top (top_first k mem.now) id }
{
    k == 0 || cellid::range_min(id) <= cellid::range_max(above(mem[k - 1]))
}

// Moves the words from `from` to before `end` down to the place `to`; gives the place after them.
fn shift(mem: &mut [u64], to: usize, from: usize, end: usize) -> usize
    requires { (to ≤ from) × (from ≤ end) × (end ≤ length mem.old) }
    ensures { (result ≡ to + (end - from)) × (mem.new ≡ laid to (drop from (take end mem.old)) mem.old) }
{
    mem.copy_within(from..end, to);
    to + (end - from)
}

// The pass over the words from `from` to before n, a normal list, on top of the first k: as soon as one lies behind the parent of the last kept, it and
// all after it stay as they are, and are only moved.
fn settle(mem: &mut [u64], k: usize, from: usize, n: usize) -> usize
    requires { PassAsks n mem.old k from × Normal (drop from (take n mem.old)) }
    ensures { PassDone n mem.old k from mem.new result }
{
    let mut kept = k;
    // An index: the words are moved within the slice.
    for i in from..n {
        let id = mem[i];
        if !near(mem, kept, id) {
            return shift(mem, kept, i, n);
        }
        kept = keep(mem, kept, id);
    }
    kept
}

// Puts c, a cell around the one at the place `at`, in its place in the first k words, a normal list, and normalises them again: what `normalize` would
// give, without sorting.
pub fn widen(mem: &mut [u64], k: usize, at: usize, c: u64) -> usize
    requires { (k ≤ length mem.old) × Normal (take k mem.old) × (at < k) × Cell c × (holds c (get_or mem.old at 0) ≡ true) }
    ensures { (result ≡ length (normalise (take k (set mem.old at c)))) × (mem.new ≡ normalised k (set mem.old at c)) }
{
    let left = clear_of(mem, at, c);
    let top = collapse(mem, left, c);
    let kept = settle(mem, top, at + 1, k);
    clear(mem, kept, k);
    kept
}

// Copies the first n words to the output's first places: as a function, for its promise is in the words of `laid`, which callers count on. Word by word, of which the
// compiler makes a `memcpy`: std's `copy_from_slice` asks for `memmove`, a name more that whoever links the archive for C without a C library would have to give.
pub fn copy(ids: &[u64], n: usize, out: &mut [u64])
    requires { (n ≤ length ids.now) × (n ≤ length out.old) }
    ensures { out.new ≡ laid 0 (take n ids.now) out.old }
{
    for i in 0..n {
        out[i] = ids[i];
    }
}

// Lays a list over the output's first places, as it is; gives its length, or nothing where it has no room and nothing was written.
pub fn lay(list: &[u64], out: &mut [u64]) -> Option<usize>
    ensures { (result ≡ room_for list.now out.old) × (out.new ≡ laid_over list.now out.old) }
{
    let n = list.len();
    if out.len() < n {
        return None;
    }
    copy(list, n, out);
    Some(n)
}
