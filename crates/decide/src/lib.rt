// What a run decides of a cell by its numbers: how far it is expanded, whether its parent is kept in its children's place, what its children weigh in the
// queue's order, whether it is handed on, whether an inner run is done. Nothing here looks at the region.
#![tactic(auto)]

ghost use Rattle.std.specs.Prelude.{◌≡◌, ◌&&◌, ◌||◌, not, ◌+◌, ◌≤◌, leb, ltb, eqb};
ghost use Rattle.std.specs.Int.Count.{ones};
ghost use Rattle.cellid.specs.CellId.{level_of};
ghost use Rattle.run.specs.Run.{min_level, max_cells, queue_most, raw_most, depth, full};
ghost use Rattle.run.specs.Editions.{weight};

use run::Request;

// How far down a candidate is expanded: one level below min, else level_mod.
#[tactic(auto, unfolding(run::specs::Run::depth))]
pub fn levels_under(q: Request, id: u64) -> u64
    ensures { result ≡ depth q id }
{
    if cellid::level(id) < q.coverer.min_level {
        1
    } else {
        q.coverer.level_mod
    }
}

// Whether the parent is kept in the place of its children: outer, at min or deeper, all of 4^level_mod, the full set, terminal.
pub fn lifts(q: Request, full: u64, id: u64, terminal: u64) -> bool
    ensures { result ≡ (not q.inner && (leb (min_level q) (level_of id) && eqb (ones terminal) full)) }
{
    !q.inner && q.coverer.min_level <= cellid::level(id) && records::count(terminal) == full
}

// What a child weighs in the queue's order, and a level in children, where a full set has `all` of them: in edition 2 one more, so that no count carries.
#[tactic(auto, unfolding(run::specs::Editions::weight))]
pub fn weight_of(q: Request, all: u64) -> u64
    requires { (all ≡ full q) × (all ≤ 64) }
    ensures { (result ≡ weight q) × (result ≤ 65) }
{
    if q.coverer.edition == 2 { all + 1 } else { all }
}

// Whether a taken candidate is handed on: inner, or below min, or one child, or few enough in all.
pub fn is_handed_on(q: Request, kept: usize, queued: usize, id: u64, children: u64) -> bool
    requires { (kept ≤ raw_most) × (queued ≤ queue_most) × (children ≤ 64) }
    ensures { result ≡ (q.inner || (ltb (level_of id) (min_level q) || (eqb children 1 || leb (kept + queued + children) (max_cells q)))) }
{
    q.inner
        || cellid::level(id) < q.coverer.min_level
        || children == 1
        || kept as u64 + queued as u64 + children <= q.coverer.max_cells
}

// Whether an inner run has as many results as are asked for.
pub fn is_full(q: Request, kept: usize) -> bool
    ensures { result ≡ (q.inner && leb (max_cells q) kept) }
{
    q.inner && q.coverer.max_cells <= kept as u64
}
