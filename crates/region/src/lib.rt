// A region is a cap, a cell or a lent list of cells, and nothing else: the trait of the Rust's region.rs as an enum, by value. Its domain is refusal 5's test;
// the look and the bound go by the case.
#![tactic(auto)]

ghost use Rattle.std.specs.Prelude.{◌≡◌, true, ◌≤◌, ◌<◌, length};
ghost use Rattle.cellid.specs.CellId.{Cell, level_of};
ghost use Rattle.cap.specs.Bound.{union_bound};
ghost use Rattle.sight.specs.Sight.{sights_of};
ghost use Rattle.cellunion.specs.Memory.{laid};
ghost use Rattle.picklist.specs.PickList.{picks_most};
ghost use Rattle.region.specs.Region.{area_of, cap_in_domain, in_domain, sight_at, bound_of};

use cell::Cap;
use sight::{Sight, Sights};

#[derive(Clone, Copy)]
pub enum Region<'a> {
    Cap(Cap),
    Cell(u64),
    List(&'a [u64]),
}

// Whether a cap is one that a request may have.
pub fn cap_in_domain(c: Cap) -> bool
    ensures { result ≡ cap_in_domain c }
{
    c.center.x.is_finite()
        && c.center.y.is_finite()
        && c.center.z.is_finite()
        && c.center.is_unit()
        && c.radius.is_finite()
        && c.radius <= point::STRAIGHT
}

// Copies ids over the memory's first words, and gives how many they are.
fn lay_ids(ids: &[u64], mem: &mut [u64]) -> usize
    requires { length ids.now ≤ length mem.old }
    ensures { (result ≡ length ids.now) × (mem.new ≡ laid 0 ids.now mem.old) }
{
    let count = ids.len();
    cellunion::copy(ids, count, mem);
    count
}

// Lays the cells that bound a cap over the memory's first words, and gives how many they are.
fn lay_cap_bound(c: Cap, mem: &mut [u64]) -> usize
    requires { 6 ≤ length mem.old }
    ensures { (result ≡ length (union_bound c)) × (mem.new ≡ laid 0 (union_bound c) mem.old) }
{
    let b = cap::cell_union_bound(c);
    lay_ids(&b.ids[..b.count], mem)
}

// Each method is a match of the three kinds, as the Rust's trait has three implementations, and asks that the region lies in the domain, which no constructor says.
impl Region<'_> {
    // Whether the region is one that a request may have: what refusal 5 asks.
    pub fn in_domain(self) -> bool
        ensures { result ≡ in_domain (area_of self.entry) }
    {
        match self {
            Region::Cap(c) => cap_in_domain(c),
            Region::Cell(own) => cellid::is_valid(own),
            Region::List(list) => picklist::is_pick_list(list),
        }
    }

    // What the cell of a valid id is to the region; where `whole` is false only outside or not. For a cap see crate cap; for a cell a few whole-number
    // operations, for a list a binary search.
    pub fn look_at(self, id: u64, whole: bool) -> Sight
        requires { (in_domain (area_of self) ≡ true) × Cell id }
        ensures { result ≡ sight_at (area_of self.entry) whole id }
    {
        match self {
            Region::Cap(c) => cap::look_at(c, id, whole),
            Region::Cell(own) => sight::look_at(own, id, whole),
            Region::List(list) => picklist::look_at(list, id, whole),
        }
    }

    // The four children of a valid id that is no leaf, as two sets by place on the curve: a cap looks at them together, a cell and a list at one after another.
    pub fn look_children(self, id: u64, whole: bool) -> Sights
        requires { (in_domain (area_of self) ≡ true) × Cell id × (level_of id < 30) }
        ensures { result ≡ sights_of (sight_at (area_of self.entry) whole) id }
    {
        match self {
            Region::Cap(c) => cap::look_children(c, id, whole),
            Region::Cell(own) => sight::look_children(own, id, whole),
            Region::List(list) => picklist::look_children(list, id, whole),
        }
    }

    // Lays the cells that bound the region over the memory's first words, and gives how many they are: one to six for a cap or a cell, the list itself for a
    // list.
    pub fn cell_union_bound(self, mem: &mut [u64]) -> usize
        requires { (in_domain (area_of self) ≡ true) × (picks_most ≤ length mem.old) }
        ensures { (result ≡ length (bound_of (area_of self.entry))) × (mem.new ≡ laid 0 (bound_of (area_of self.entry)) mem.old) }
    {
        match self {
            Region::Cap(c) => lay_cap_bound(c, mem),
            Region::Cell(own) => lay_cap_bound(cell::from_id(own).cap_bound(), mem),
            Region::List(list) => lay_ids(list, mem),
        }
    }
}
