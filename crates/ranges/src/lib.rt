// Lists of cells as pairs of first and last leaf, and back. A stretch of leaves [s, e) is given by leaf numbers; leaf number n has the id 2n + 1.
// Each way takes a pass that looks and one that writes, and between them one that counts where a list's length doesn't tell that there is room: what is
// refused leaves the output as it was, so nothing is written before all is seen.
#![tactic(auto)]

ghost use Rattle.std.specs.Prelude.{◌≡◌, true, ◌+◌, ◌-◌, ◌*◌, ◌^◌, ◌≤◌, ◌<◌, length, set, leb};
ghost use Rattle.std.proofs.lemmas.List.Edits.{sets};
ghost use Rattle.cellunion.specs.CellUnion.{is_list};
ghost use Rattle.ranges.specs.Ranges.{leaves, joins, is_pairs, follows, size, tile, pairs_of, cells_of, pairs_result, cells_result, Answered};
ghost use Rattle.ranges.specs.Steps.{looked, held, closed, opened, aligned};

use refusal::Refusal;

// Whether a pair that ends at `last` is joined with one that begins at `next`.
fn joins(last: u64, next: u64) -> bool
    requires { last < 2 * leaves }
    ensures { result ≡ joins last next }
{
    next == last + 2
}

// Whether a pair may come next, its first at `from` or after.
fn follows(from: u64, first: u64, last: u64) -> bool
    ensures { result ≡ follows from first last }
{
    first % 2 == 1
        && last % 2 == 1
        && from <= first
        && first <= last
        && last < 0xc000_0000_0000_0000
}

// Writes a word, if there is such a place.
fn put(out: &mut [u64], at: usize, v: u64)
    ensures { out.new ≡ set out.old at v }
{
    if at < out.len() {
        out[at] = v;
    }
}

// The largest k, 30 at most, such that a cell of 4^k leaves can begin at s.
fn aligned(s: u64) -> u64
    ensures { result ≡ aligned s }
{
    u64::from(s.trailing_zeros() >> 1).min(30)
}

// The largest number of leaves that a cell from s on has in the stretch [s, e).
fn size(s: u64, e: u64) -> u64
    requires { (s < e) × (e ≤ leaves) }
    ensures { result ≡ size s e }
{
    for k in (1..aligned(s) + 1).rev() {
        let z = 1 << (2 * k);
        if s + z <= e {
            return z;
        }
    }
    1
}

// Writes the stretch's cells from place `at` on, as far as there are places; gives the place after them.
pub fn tile(s: u64, e: u64, out: &mut [u64], at: usize) -> usize
    requires { (s ≤ e) × (e ≤ leaves) × (at + (e - s) < 2 ^ 64) }
    ensures { (result ≡ at + length (tile s e)) × (out.new ≡ sets out.old at (tile s e)) }
{
    // From cell to cell, however large they are.
    let mut from = s;
    let mut place = at;
    while from < e {
        let z = size(from, e);
        put(out, place, 2 * from + z);
        place += 1;
        from += z;
    }
    place
}

// How many cells the stretch becomes.
fn count(s: u64, e: u64) -> usize
    requires { (s ≤ e) × (e ≤ leaves) }
    ensures { result ≡ length (tile s e) }
{
    tile(s, e, &mut [], 0)
}

// One look at pairs: how many cells they become, where they are leaf ids, ascending, none joinable.
fn look_pairs(ps: &[u64]) -> Result<usize, Refusal>
    ensures { result ≡ looked (is_pairs ps.now) (cells_of ps.now) }
{
    let mut from = 1;
    let mut cells = 0;
    // An index: a pair is two words, and the last word may stand alone.
    let mut i = 0;
    while i + 1 < ps.len() {
        let first = ps[i];
        let last = ps[i + 1];
        if !follows(from, first, last) {
            return Err(Refusal::NotRanges);
        }
        cells += count(first >> 1, (last + 1) >> 1);
        from = last + 4;
        i += 2;
    }
    if i == ps.len() {
        Ok(cells)
    } else {
        Err(Refusal::NotRanges)
    }
}

// Writes the pair of the cells so far from place `at` on, as far as there are places; gives the place after it. Where no cell came yet, `last` is 0.
fn hold(first: u64, last: u64, out: &mut [u64], at: usize) -> usize
    requires { at + 2 < 2 ^ 64 }
    ensures { (result ≡ at + length (held first last)) × (out.new ≡ sets out.old at (held first last)) }
{
    // No pair is there yet: no leaf has the id 0.
    if last == 0 {
        return at;
    }
    put(out, at, first);
    put(out, at + 1, last);
    at + 2
}

// Writes that pair, unless the next cell, whose first leaf is `next`, goes on with it.
fn close(first: u64, last: u64, next: u64, out: &mut [u64], at: usize) -> usize
    requires { (last < 2 * leaves) × (at + 2 < 2 ^ 64) }
    ensures { (result ≡ at + length (closed first last next)) × (out.new ≡ sets out.old at (closed first last next)) }
{
    if joins(last, next) {
        return at;
    }
    hold(first, last, out, at)
}

// The first leaf of the pair that the next cell belongs to.
fn open(first: u64, last: u64, next: u64) -> u64
    requires { last < 2 * leaves }
    ensures { result ≡ opened first last next }
{
    if joins(last, next) { first } else { next }
}

// Writes the list's pairs, as far as there are places; gives how many words they are.
fn join(ids: &[u64], out: &mut [u64]) -> usize
    requires { is_list ids.now ≡ true }
    ensures { (result ≡ length (pairs_of ids.now)) × (out.new ≡ sets out.old 0 (pairs_of ids.now)) }
{
    let mut first = 0;
    let mut last = 0;
    let mut at = 0;
    for &id in ids {
        let next = cellid::range_min(id);
        at = close(first, last, next, out, at);
        first = open(first, last, next);
        last = cellid::range_max(id);
    }
    hold(first, last, out, at)
}

// Writes the pairs' cells, as far as there are places; gives how many they are.
fn fill(ps: &[u64], out: &mut [u64]) -> usize
    requires { is_pairs ps.now ≡ true }
    ensures { (result ≡ length (cells_of ps.now)) × (out.new ≡ sets out.old 0 (cells_of ps.now)) }
{
    let mut at = 0;
    // An index: a pair is two words.
    let mut i = 0;
    while i + 1 < ps.len() {
        let last = ps[i + 1];
        at = tile(ps[i] >> 1, (last + 1) >> 1, out, at);
        i += 2;
    }
    at
}

// How many words a list's pairs are.
fn words(ids: &[u64]) -> usize
    requires { is_list ids.now ≡ true }
    ensures { result ≡ length (pairs_of ids.now) }
{
    join(ids, &mut [])
}

// Whether an output of so many places has room for a list's pairs: where the list's length doesn't tell, their words are counted.
fn has_room(ids: &[u64], room: usize) -> bool
    requires { is_list ids.now ≡ true }
    ensures { result ≡ leb (length (pairs_of ids.now)) room }
{
    ids.len() <= room / 2 || words(ids) <= room
}

// Turns a list into pairs of first and last leaf, neighbouring pairs joined; gives how many words stand in the output's first places. Refused are a list that
// is not valid, ascending and free of overlap, and then more words than the output has places.
pub fn pairs(ids: &[u64], out: &mut [u64]) -> Result<usize, Refusal>
    ensures { Answered (pairs_result ids.now (length out.old)) result out.old out.new }
{
    if !cellunion::is_valid(ids) {
        return Err(Refusal::NotRanges);
    }
    if !has_room(ids, out.len()) {
        return Err(Refusal::RangesTooLong);
    }
    Ok(join(ids, out))
}

// Turns such pairs back into the normalised list; gives how many ids stand in the output's first places. Refused are words that are not such pairs, and then
// more ids than the output has places.
pub fn cells(ps: &[u64], out: &mut [u64]) -> Result<usize, Refusal>
    ensures { Answered (cells_result ps.now (length out.old)) result out.old out.new }
{
    let count = look_pairs(ps)?;
    if out.len() < count {
        return Err(Refusal::RangesTooLong);
    }
    Ok(fill(ps, out))
}
