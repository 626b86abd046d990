// Candidates and their expansion: region.rs's new_candidate and expand_children. Definitions: look, depth and expand of the crate run, and the sets of
// its specs/Masks.
#![tactic(auto)]

mod asking;

ghost use Rattle.std.specs.Prelude.{◌≡◌, ◌+◌, ◌<◌, ◌≤◌};
ghost use Rattle.cellid.specs.CellId.{Cell, level_of};
ghost use Rattle.run.specs.Run.{level_mod, look, depth};
ghost use Rattle.run.specs.Masks.{place_in, found};
ghost use Rattle.candidate.specs.Asking.{asked};
ghost use Rattle.candidate.specs.Candidate.{asks_whole, crossing_as, candidate_of, Roomy};

pub use asking::Asking;
use run::{Found, Request};
use sight::Sight;

// The sets of no children.
const NONE: Found = Found {
    present: 0,
    terminal: 0,
};

// What a candidate is to a run: terminal, or to be expanded.
#[derive(Clone, Copy)]
pub enum Candidate {
    Kept,
    Queued,
}

// What a crossing cell of this level is to a run: no candidate, where it would be terminal in an inner run.
fn crossing(q: Request, level: u64) -> Option<Candidate>
    requires { (level ≤ 30) × (level_mod q ≤ 3) }
    ensures { result ≡ candidate_of (crossing_as q level) }
{
    if level < q.coverer.min_level || level + q.coverer.level_mod <= q.coverer.max_level {
        Some(Candidate::Queued)
    } else if q.inner {
        None
    } else {
        Some(Candidate::Kept)
    }
}

// Whether the run asks of a cell of this level if it lies inside: at min or deeper, but for an outer one that is kept in any case.
fn asks_whole(q: Request, level: u64, crossing: Option<Candidate>) -> bool
    requires { crossing ≡ candidate_of (crossing_as q level) }
    ensures { result ≡ asks_whole q level }
{
    match crossing {
        Some(Candidate::Kept) => false,
        Some(Candidate::Queued) => level >= q.coverer.min_level,
        None => true,
    }
}

// `f` joined to `acc` as the k-th of four parts of `width` places each.
fn placed(acc: Found, f: Found, width: u64, k: u64) -> Found
    requires { Roomy acc f width k }
    ensures { result ≡ place_in acc f width k }
{
    Found {
        present: acc.present | (f.present << (width * k)),
        terminal: acc.terminal | (f.terminal << (width * k)),
    }
}

impl Asking<'_> {
    // What the cell is to the run: kept if it is terminal, queued if it is to be expanded, none if it lies outside or an inner run can't use it. One look, for no
    // more than the run asks.
    pub fn new_candidate(self, id: u64) -> Option<Candidate>
        requires cell { Cell id }
        ensures { result ≡ candidate_of (look (asked self.entry) id) }
    {
        let level = cellid::level(id);
        let c = crossing(self.request, level);
        match self.region.look_at(id, asks_whole(self.request, level, c)) {
            Sight::Outside => None,
            Sight::Crossing => c,
            Sight::Inside => Some(Candidate::Kept),
        }
    }

    // The sets of the four children of a cell, which have one level, so that one rule holds for all four.
    fn children(self, id: u64) -> Found
        requires cell { Cell id × (level_of id < 30) }
        ensures { result ≡ found (asked self.entry) 1 id }
    {
        let under = cellid::level(id) + 1;
        let c = crossing(self.request, under);
        let l = self
            .region
            .look_children(id, asks_whole(self.request, under, c));
        match c {
            Some(Candidate::Kept) => Found {
                present: l.passing,
                terminal: l.passing,
            },
            Some(Candidate::Queued) => Found {
                present: l.passing,
                terminal: l.inside,
            },
            None => Found {
                present: l.inside,
                terminal: l.inside,
            },
        }
    }

    // The children `left` levels under a cell, one level inside another: the cells between are looked at four by four, each cell once.
    fn expand_children(self, id: u64, left: u64) -> Found
        requires left_nonzero { (0 < left) × (left ≤ 3) }
        requires cell { Cell id × (level_of id + left ≤ 30) }
        ensures { result ≡ found (asked self.entry) left id }
    {
        if left == 1 {
            return self.children(id);
        }
        let less = left - 1;
        let width: u64 = 1 << (2 * less);
        let l = self.region.look_children(id, false);
        let passing = l.passing;
        let mut acc = NONE;
        for k in 0..4 {
            let f = if (passing >> k) & 1 == 1 {
                self.expand_children(cellid::child(id, k), less)
            } else {
                NONE
            };
            acc = placed(acc, f, width, k);
        }
        acc
    }

    // The children of a candidate that is to be expanded: by one level below min, else by level_mod.
    pub fn expand(self, id: u64) -> Found
        requires cell { Cell id × (level_of id + depth self.request id ≤ 30) }
        ensures { result ≡ found (asked self.entry) (depth self.entry.request id) id }
    {
        if cellid::level(id) < self.request.coverer.min_level
            || self.request.coverer.level_mod == 1
        {
            self.children(id)
        } else {
            self.expand_children(id, self.request.coverer.level_mod)
        }
    }
}
