// Fast coverings and start cells of a region. A list stands in the first n words of the lent memory: it shrinks in place there, and what it leaves over becomes
// zero, so that memory and length go together through all functions here (no heap, fixed lent memory).
#![tactic(auto)]

mod numbers;

ghost use Rattle.std.specs.Prelude.{◌≡◌, true, ◌&&◌, leb, ◌++◌, ◌-◌, ◌≤◌, ◌<◌, min, length, take, drop};
ghost use Rattle.cellid.specs.CellId.{Cell};
ghost use Rattle.order.specs.Order.{All};
ghost use Rattle.cellunion.specs.CellUnion.{Normal};
ghost use Rattle.cellunion.specs.Memory.{zeros, room_for, laid_over};
ghost use Rattle.cellunion.specs.Stack.{top_first, Gives};
ghost use Rattle.region.specs.Region.{area_of, in_domain, bound_of};
ghost use Rattle.run.specs.Run.{memory_words};
ghost use Rattle.fast.specs.Fast.{adjusted, pair_depth, keep_start};
ghost use Rattle.fast.specs.Memory.{NumbersFit, lifted_for, merged_for, merged_covering_for, fast_covering_for, adjusted_for, starts_for, in_place, Cells};

use numbers::Numbers;
use run::RegionCoverer;

// The start cells of a run, at most six, with zeros behind them. An array with its length: the run takes the memory itself, and there is no heap.
#[derive(Clone, Copy)]
pub struct StartCells {
    pub ids: [u64; 6],
    pub count: usize,
}

// A neighbouring pair, by the place of its first cell, and one more than the adjusted level of its common ancestor. No Option: 0, for no ancestor, lies below
// every other depth, as the paper's -1 does, so that one comparison says which is deeper and one whether merging ends.
#[derive(Clone, Copy)]
struct Best {
    at: usize,
    depth: u64,
}

// One more start cell on the first k, the last kept on top: skipped if the last one contains it, in its place if it contains the last one, else on top.
// Earlier ones are not looked at.
fn keep_start(mem: &mut [u64], k: usize, id: u64) -> usize
    requires { (k < length mem.old) × All Cell (top_first k mem.old) × Cell id }
    ensures { Gives (keep_start (top_first k mem.old) id) k mem.old mem.new result }
{
    if 0 < k {
        let last = mem[k - 1];
        if cellid::contains(last, id) {
            return k;
        }
        if cellid::contains(id, last) {
            mem[k - 1] = id;
            return k;
        }
    }
    mem[k] = id;
    k + 1
}

impl Numbers {
    // The level, moved up onto the steps from min_level where it lies below that.
    fn adjust_level(self, level: u64) -> u64
        ensures { result ≡ adjusted self.coverer.min_level self.coverer.level_mod level }
    {
        if 1 < self.coverer.level_mod && self.coverer.min_level < level {
            level - (level - self.coverer.min_level) % self.coverer.level_mod
        } else {
            level
        }
    }

    // One more than the adjusted level of the two cells' common ancestor; 0 for none.
    fn depth(self, a: u64, b: u64) -> u64
        requires { Cell a × Cell b }
        ensures { result ≡ pair_depth self.coverer.min_level self.coverer.level_mod a b }
    {
        match cellid::common_ancestor_level(a, b) {
            Some(level) => self.adjust_level(level) + 1,
            None => 0,
        }
    }

    // Whether a request takes cells of every level: down to level 30, in steps of one.
    fn takes_all_levels(self) -> bool
        ensures { result ≡ (leb 30 self.coverer.max_level && leb self.coverer.level_mod 1) }
    {
        30 <= self.coverer.max_level && self.coverer.level_mod <= 1
    }

    // Moves each of the first n cells that is deeper than max_level or off step to its ancestor that is neither. Where every level is taken there is nothing to move.
    fn lift(self, mem: &mut [u64], n: usize)
        requires { Cells n mem.old }
        ensures { mem.new ≡ lifted_for self.coverer (take n mem.old) ++ drop n mem.old }
    {
        if self.takes_all_levels() {
            return;
        }
        for id in mem[..n].iter_mut() {
            let up = self.adjust_level(cellid::level(*id).min(self.coverer.max_level));
            *id = cellid::parent(*id, up);
        }
    }

    // Merges the first n cells, a normal list, while they are more than max_cells: the neighbours whose common ancestor lies deepest become that
    // ancestor, as long as it lies at min_level or deeper. Gives how many are left. The smaller the exclusive or of two neighbours, the deeper lies their ancestor:
    // only a pair with a smaller one than all before it, `least`, is looked at closer. It begins with 2 ^ 61: from there on the faces differ, and there is no ancestor.
    fn merge(self, mem: &mut [u64], n: usize) -> usize
        requires { (n ≤ length mem.old) × Normal (take n mem.old) }
        ensures { (result ≡ length (merged_for self.coverer (take n mem.old))) × (mem.new ≡ in_place n (merged_for self.coverer (take n mem.old)) mem.old) }
    {
        let low = self.coverer.min_level;
        let cells = self.coverer.max_cells;
        let mut k = n;
        // As long as it takes: each turn shortens the list. In the scan an index: the place of the best pair is kept.
        'merge: while cells < k as u64 {
            let mut best = Best { at: 0, depth: 0 };
            let mut least: u64 = 1 << 61;
            'scan: for i in 0..k - 1 {
                let a = mem[i];
                let b = mem[i + 1];
                if a ^ b < least {
                    least = a ^ b;
                    let d = self.depth(a, b);
                    if best.depth < d {
                        best = Best { at: i, depth: d };
                    }
                }
            }
            let deepest = best.depth;
            if deepest <= low {
                break 'merge;
            }
            let at = best.at;
            let wide = cellid::parent(mem[at], deepest - 1);
            k = cellunion::widen(mem, k, at, wide);
        }
        k
    }

    // Fast covering's normal list, before it is denormalised, in place of the first n cells of the memory; gives its length.
    fn merge_covering(self, mem: &mut [u64], n: usize) -> usize
        requires { Cells n mem.old }
        ensures { (result ≡ length (merged_covering_for self.coverer (take n mem.old))) × (mem.new ≡ in_place n (merged_covering_for self.coverer (take n mem.old)) mem.old) }
    {
        self.lift(mem, n);
        let k = cellunion::normalize(mem, n);
        self.merge(mem, k)
    }

    // The first n cells, each moved to its adjusted level, and kept one after another. Gives how many are left.
    fn adjust_cell_levels(self, mem: &mut [u64], n: usize) -> usize
        requires { Cells n mem.old }
        ensures { (result ≡ length (adjusted_for self.coverer (take n mem.old))) × (mem.new ≡ in_place n (adjusted_for self.coverer (take n mem.old)) mem.old) }
    {
        let mut kept: usize = 0;
        // An index: the kept cells are written over the words that were read.
        for i in 0..n {
            let id = mem[i];
            let up = cellid::parent(id, self.adjust_level(cellid::level(id)));
            kept = keep_start(mem, kept, up);
        }
        cellunion::clear(mem, kept, n);
        kept
    }

    // The cells that a run starts from, for any list of cells, in place of the first n words: the rough fast covering with at most four cells where
    // that goes, then moved to levels on step. Gives how many they are, at most six; every leaf of the list lies under one. With level_mod above 1 they may overlap.
    fn start_cells(self, mem: &mut [u64], n: usize) -> usize
        requires { Cells n mem.old }
        ensures { (result ≡ length (starts_for self.coverer (take n mem.old))) × (mem.new ≡ in_place n (starts_for self.coverer (take n mem.old)) mem.old) }
    {
        let rough = Numbers {
            coverer: RegionCoverer {
                min_level: 0,
                level_mod: 1,
                max_cells: self.coverer.max_cells.min(4),
                ..self.coverer
            },
        };
        let k = rough.merge_covering(mem, n);
        if self.coverer.level_mod <= 1 {
            k
        } else {
            self.adjust_cell_levels(mem, k)
        }
    }
}

// Fast covering of the first n cells of the memory, laid over the output's first places; counted before anything is written there.
// The memory then holds the list before it was denormalised.
pub fn normalize_covering(
    c: RegionCoverer,
    mem: &mut [u64],
    n: usize,
    out: &mut [u64],
) -> Option<usize>
    requires { NumbersFit c × Cells n mem.old }
    ensures { (result ≡ room_for (fast_covering_for c (take n mem.old)) out.old) × (out.new ≡ laid_over (fast_covering_for c (take n mem.old)) out.old) × (mem.new ≡ in_place n (merged_covering_for c (take n mem.old)) mem.old) }
{
    let k = Numbers { coverer: c }.merge_covering(mem, n);
    denorm::denormalize(&mem[..k], c.min_level, c.level_mod, out)
}

// Fast covering of the region's bound, laid over the output's first places. It takes no steps. The bound stands in the memory's first words meanwhile; in its
// place stays the list before it was denormalised.
pub fn fast_covering(
    c: RegionCoverer,
    g: region::Region<'_>,
    mem: &mut [u64],
    out: &mut [u64],
) -> Option<usize>
    requires { NumbersFit c × (in_domain (area_of g) ≡ true) × (memory_words ≤ length mem.old) }
    ensures value { (result ≡ room_for (fast_covering_for c (bound_of (area_of g.entry))) out.old) × (out.new ≡ laid_over (fast_covering_for c (bound_of (area_of g.entry))) out.old) }
    ensures mem_after { mem.new ≡ in_place (length (bound_of (area_of g.entry))) (merged_covering_for c (bound_of (area_of g.entry))) mem.old }
{
    let n = g.cell_union_bound(mem);
    normalize_covering(c, mem, n, out)
}

// The start cells for the region: those of its bound, which stands in the memory's first words meanwhile; in its place they stay there, too.
pub fn starts(c: RegionCoverer, g: region::Region<'_>, mem: &mut [u64]) -> StartCells
    requires { NumbersFit c × (in_domain (area_of g) ≡ true) × (memory_words ≤ length mem.old) }
    ensures count_value { (result.count ≡ length (starts_for c (bound_of (area_of g.entry)))) × (result.ids ≡ starts_for c (bound_of (area_of g.entry)) ++ zeros (6 - length (starts_for c (bound_of (area_of g.entry))))) }
    ensures mem_after { mem.new ≡ in_place (length (bound_of (area_of g.entry))) (starts_for c (bound_of (area_of g.entry))) mem.old }
{
    let n = g.cell_union_bound(mem);
    let count = Numbers { coverer: c }.start_cells(mem, n);
    let mut ids = [0; 6];
    cellunion::copy(mem, count, &mut ids);
    StartCells { ids, count }
}
