// The union, the common part and the difference of two lists of cells. One sweep over the edges of both lists finds the stretches of wanted leaves, and each
// stretch becomes its largest cells. What is refused leaves the output as it was, so nothing is written before it is known that there is room: where the
// lists' lengths don't tell, a sweep of its own counts. No memory is asked for.
#![tactic(auto)]

ghost use Rattle.std.specs.Prelude.{◌≡◌, true, ◌+◌, ◌≤◌, length, drop, leb};
ghost use Rattle.std.proofs.lemmas.List.Edits.{sets};
ghost use Rattle.cellid.specs.CellId.{Cell};
ghost use Rattle.order.specs.Order.{All};
ghost use Rattle.cellunion.specs.CellUnion.{lo, hi, is_list};
ghost use Rattle.ranges.specs.Ranges.{leaves, Answered};
ghost use Rattle.picklist.specs.PickList.{is_pick_list};
ghost use Rattle.sets.specs.Sets.{wants, combined, set_result};
ghost use Rattle.sets.specs.Steps.{cursor_at, moved_to, done_with, open_from, is_short};

use refusal::Refusal;

// How many leaves there are.
const LEAVES: u64 = 0x6000_0000_0000_0000;

// Which leaves are wanted: those of either list, of both, of the first alone.
#[derive(Clone, Copy)]
pub enum Op {
    Union,
    Common,
    Difference,
}

// Whether a leaf is wanted, by whether it is the first list's and whether it is the second's.
fn wants(op: Op, x: bool, y: bool) -> bool
    ensures { result ≡ wants op x y }
{
    match op {
        Op::Union => x || y,
        Op::Common => x && y,
        Op::Difference => x && !y,
    }
}

// The number of a cell's first leaf.
fn lo(id: u64) -> u64
    requires { Cell id }
    ensures { result ≡ lo id }
{
    (id - cellid::lsb(id)) >> 1
}

// The number of the leaf after a cell's last.
fn hi(id: u64) -> u64
    requires { Cell id }
    ensures { result ≡ hi id }
{
    (id + cellid::lsb(id)) >> 1
}

// Where a list stands at a leaf: the place of the next cell, the next leaf at which that cell begins or has ended, and whether it has begun. No Option: the edge
// is there either way.
#[derive(Clone, Copy)]
struct Cursor {
    at: usize,
    edge: u64,
    inside: bool,
}

// Where a list stands at the leaf p, its next cell at place i. Here and in `move_to` by early returns, and by choices of a field: where branches that make a struct
// join, it is copied with what lies between its fields, and a sweep takes twice as long.
fn cursor_at(l: &[u64], i: usize, p: u64) -> Cursor
    requires { All Cell (drop i l.now) }
    ensures { result ≡ cursor_at l.now i p }
{
    if i < l.len() {
        let id = l[i];
        let first = lo(id);
        let inside = first <= p;
        return Cursor {
            at: i,
            edge: if inside { hi(id) } else { first },
            inside,
        };
    }
    Cursor {
        at: i,
        edge: LEAVES,
        inside: false,
    }
}

// The same at the leaf q, which is no further than the edge.
fn move_to(l: &[u64], c: Cursor, q: u64) -> Cursor
    requires { All Cell (drop c.at l.now) × (c.at ≤ length l.now) }
    ensures { result ≡ moved_to l.now c q }
{
    if q < c.edge {
        return c;
    }
    if c.inside {
        return cursor_at(l, c.at + 1, q);
    }
    cursor_at(l, c.at, q)
}

// Writes the cells of the stretch [s, p) from place `at` on, as far as there are places, unless the leaves from p on are wanted too; gives the place after them.
fn write_done(want: bool, s: u64, p: u64, out: &mut [u64], at: usize) -> usize
    requires { (s ≤ p) × (p ≤ leaves) × (at ≤ s) }
    ensures { (result ≡ at + length (done_with want s p)) × (out.new ≡ sets out.old at (done_with want s p)) }
{
    if want {
        at
    } else {
        ranges::tile(s, p, out, at)
    }
}

// Where the stretch begins that is open at q.
fn open_from(want: bool, s: u64, q: u64) -> u64
    ensures { result ≡ open_from want s q }
{
    if want { s } else { q }
}

// Writes the answer, as far as there are places; gives its length.
fn sweep(op: Op, a: &[u64], b: &[u64], out: &mut [u64]) -> usize
    requires { (is_list a.now ≡ true) × (is_list b.now ≡ true) }
    ensures { (result ≡ length (combined op a.now b.now)) × (out.new ≡ sets out.old 0 (combined op a.now b.now)) }
{
    let mut first = cursor_at(a, 0, 0);
    let mut second = cursor_at(b, 0, 0);
    let mut s = 0;
    let mut p = 0;
    let mut at = 0;
    // From edge to edge, however far that is.
    while p < LEAVES {
        let want = wants(op, first.inside, second.inside);
        let q = first.edge.min(second.edge);
        at = write_done(want, s, p, out, at);
        s = open_from(want, s, q);
        first = move_to(a, first, q);
        second = move_to(b, second, q);
        p = q;
    }
    ranges::tile(s, p, out, at)
}

// How long the answer is.
fn count(op: Op, a: &[u64], b: &[u64]) -> usize
    requires { (is_list a.now ≡ true) × (is_list b.now ≡ true) }
    ensures { result ≡ length (combined op a.now b.now) }
{
    sweep(op, a, b, &mut [])
}

// Whether the answer is no longer than both lists.
fn is_short(op: Op) -> bool
    ensures { result ≡ is_short op }
{
    match op {
        Op::Union | Op::Common => true,
        Op::Difference => false,
    }
}

// Whether an output of so many places has room for the answer: where the lists' lengths don't tell, its cells are counted.
fn has_room(op: Op, a: &[u64], b: &[u64], room: usize) -> bool
    requires { (is_pick_list a.now ≡ true) × (is_pick_list b.now ≡ true) }
    ensures { result ≡ leb (length (combined op a.now b.now)) room }
{
    // An early end: nothing is counted where the lengths tell.
    if is_short(op) && a.len() + b.len() <= room {
        return true;
    }
    count(op, a, b) <= room
}

// The normalised list of the leaves that are wanted of two lists; gives how many ids stand in the output's first places. Refused are a first list that is not
// valid, ascending and free of overlap, or longer than 4,096 ids; then such a second; then more ids than the output has places.
pub fn combine(op: Op, a: &[u64], b: &[u64], out: &mut [u64]) -> Result<usize, Refusal>
    ensures { Answered (set_result op a.now b.now (length out.old)) result out.old out.new }
{
    if !picklist::is_pick_list(a) {
        return Err(Refusal::FirstList);
    }
    if !picklist::is_pick_list(b) {
        return Err(Refusal::SecondList);
    }
    if !has_room(op, a, b, out.len()) {
        return Err(Refusal::SetTooLong);
    }
    Ok(sweep(op, a, b, out))
}
