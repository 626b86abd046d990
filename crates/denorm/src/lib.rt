// Denormalising: the cells of a list become their descendants at the levels that a request takes.
#![tactic(auto)]

ghost use Rattle.std.specs.Prelude.{◌≡◌, ◌+◌, ◌-◌, ◌*◌, ◌^◌, ◌≤◌, ◌<◌, nat_le, length};
ghost use Rattle.cellid.specs.CellId.{Cell, level_of};
ghost use Rattle.cellunion.specs.Memory.{laid, room_for, laid_over};
ghost use Rattle.denorm.specs.Denorm.{goal, below, denormalise, count_of, AsksList};

// `low` and `step` are two numbers of a request, whose struct stands in a crate above.

// The level a cell goes to.
fn goal_level(level: u64, low: u64, step: u64) -> u64
    requires { (level ≤ 30) × (low ≤ 30) × (0 < step) }
    ensures { result ≡ goal low step level }
{
    let m = level.max(low);
    (m + (30 - (m - low)) % step).min(30)
}

// Whether the cells that a list becomes are at most `room`. They are counted as far as that only.
fn fits(list: &[u64], low: u64, step: u64, room: usize) -> bool
    requires { AsksList low step list.now }
    ensures { result ≡ nat_le (count_of low step list.now) room }
{
    let mut left = room;
    for &id in list {
        let level = cellid::level(id);
        let cells = 1 << (2 * (goal_level(level, low, step) - level));
        // An early end: what has no room is not counted on.
        if left < cells {
            return false;
        }
        left -= cells;
    }
    true
}

// Writes the cells of the level `to` under id from place `at` on; gives the place after them.
fn spread(id: u64, to: u64, out: &mut [u64], at: usize) -> usize
    requires { Cell id × (level_of id ≤ to) × (to ≤ 30) × (at + 2 ^ (2 * (to - level_of id)) ≤ length out.old) }
    ensures { (result ≡ at + 2 ^ (2 * (to - level_of id))) × (out.new ≡ laid at (below to id) out.old) }
{
    let bit = cellid::lsb_for_level(to);
    let mut c = id - cellid::lsb(id) + bit;
    let end = at + (1 << (2 * (to - cellid::level(id))));
    let part = &mut out[at..end];
    for place in part.iter_mut() {
        *place = c;
        c += bit << 1;
    }
    end
}

// Writes the denormalised list into the output's first places; gives its length.
fn write(list: &[u64], low: u64, step: u64, out: &mut [u64]) -> usize
    requires { AsksList low step list.now × (count_of low step list.now ≤ length out.old) }
    ensures { (result ≡ count_of low step list.now) × (out.new ≡ laid 0 (denormalise low step list.now) out.old) }
{
    let mut at = 0;
    for &id in list {
        let to = goal_level(cellid::level(id), low, step);
        at = spread(id, to, out, at);
    }
    at
}

// Lays the cells that a list becomes, by 01's levels for low and step, over the output's first places.
// They are counted before anything is written, and the count stops as soon as it is past the output's length: a list with no room costs at most as many steps
// as it has cells.
pub fn denormalize(list: &[u64], low: u64, step: u64, out: &mut [u64]) -> Option<usize>
    requires { AsksList low step list.now }
    ensures { (result ≡ room_for (denormalise low step list.now) out.old) × (out.new ≡ laid_over (denormalise low step list.now) out.old) }
{
    if !fits(list, low, step, out.len()) {
        return None;
    }
    Some(write(list, low, step, out))
}
