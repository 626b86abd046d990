// Pick lists: areas that people send as cells. What such a list may be, and what it is to a cell, told by one binary search.
#![tactic(auto)]

ghost use Rattle.std.specs.Prelude.{◌≡◌, true, ◌<◌};
ghost use Rattle.cellid.specs.CellId.{Cell, level_of};
ghost use Rattle.picklist.specs.PickList.{is_pick_list, list_meets, list_holds, Parts};
ghost use Rattle.sight.specs.Sight.{sight_of, sights_of};

use sight::{Sight, Sights};

// The most ids of a pick list.
pub const PICKS_MOST: usize = 4096;

// Whether a list may come in: valid, ascending, free of overlap, at most 4,096 ids.
pub fn is_pick_list(list: &[u64]) -> bool
    ensures { result ≡ is_pick_list list.now }
{
    list.len() <= PICKS_MOST && cellunion::is_valid(list)
}

// The first place whose cell ends with the leaf `first` or after it, the list's length where none does, as std's searches tell it. The ids ascend, and of those before the leaf only the
// last can end behind it.
fn find(list: &[u64], first: u64) -> usize
    requires { is_pick_list list.now ≡ true }
    ensures { Parts list.now first result }
{
    let at = list.partition_point(|&id| id < first);
    if 0 < at && first <= cellid::range_max(list[at - 1]) {
        at - 1
    } else {
        at
    }
}

// What the cell of a valid id is to a list; where `whole` is false only outside or not. The first listed cell that doesn't end before the cell begins decides:
// if it doesn't meet the cell none does, and no other can contain it.
pub fn look_at(list: &[u64], id: u64, whole: bool) -> Sight
    requires { (is_pick_list list.now ≡ true) × Cell id }
    ensures { result ≡ sight_of (list_meets list.now) (list_holds list.now) whole id }
{
    let at = find(list, cellid::range_min(id));
    if at < list.len() {
        sight::look_at(list[at], id, whole)
    } else {
        Sight::Outside
    }
}

// What the four children of a valid id that is no leaf are to a list.
pub fn look_children(list: &[u64], id: u64, whole: bool) -> Sights
    requires { (is_pick_list list.now ≡ true) × Cell id × (level_of id < 30) }
    ensures { result ≡ sights_of (sight_of (list_meets list.now) (list_holds list.now) whole) id }
{
    sight::look_children_by(id, move |child| look_at(list, child, whole))
}
