// Cell ids: u64 numbers whose lowest set bit tells the level. Every function is a few shifts and masks.
#![tactic(auto)]

ghost use Rattle.std.specs.Prelude.{◌≡◌, ℕ, ◌+◌, ◌-◌, ◌*◌, ◌^◌, ◌<◌, ◌≤◌, max};
ghost use Rattle.cellid.specs.CellId.{Cell, IsCell, face_of, low_bit, level_of, valid_id, parent_at, child_of, first_leaf, last_leaf, holds, meets, common_level};

// The weight of the lowest set bit.
pub fn lsb(id: u64) -> u64
    requires { 0 < id }
    ensures { result ≡ low_bit id }
{
    id & id.wrapping_neg()
}

// The weight of the lowest set bit of a level's ids.
pub fn lsb_for_level(level: u64) -> u64
    requires { level ≤ 30 }
    ensures { result ≡ 2 ^ (2 * (30 - level)) }
{
    1 << (2 * (30 - level))
}

// The top three bits.
pub fn face(id: u64) -> u64
    ensures { result ≡ face_of id }
{
    id >> 61
}

// The level, read from the lowest set bit; 0 where that stands above every level's place. No Option: `level_of` gives every number a level, and who holds a
// cell needs no case for none.
pub fn level(id: u64) -> u64
    ensures { result ≡ level_of id }
{
    let half = id.trailing_zeros() >> 1;
    if half <= 30 { u64::from(30 - half) } else { 0 }
}

const FACES: u64 = 6;

// Whether a number is a cell: face 0 to 5, and the lowest set bit at an even place, 0 to 60.
pub fn is_valid(id: u64) -> bool
    ensures { result ≡ valid_id id }
{
    let low = id.trailing_zeros();
    face(id) < FACES && low <= 60 && low % 2 == 0
}

// The ancestor at a level, of a cell at that level or below.
pub fn parent(id: u64, level: u64) -> u64
    requires { level ≤ 30 }
    ensures { result ≡ parent_at id level }
{
    let low = lsb_for_level(level);
    (id & low.wrapping_neg()) | low
}

// The cell one level up, of a cell that is no face.
pub fn immediate_parent(id: u64) -> u64
    requires { (L : ℕ) × (p : ℕ) × IsCell id (L + 1) p }
    ensures { result ≡ parent_at id (level_of id - 1) }
{
    let low = lsb(id) << 2;
    (id & low.wrapping_neg()) | low
}

// The k-th child, 0 to 3, of a cell that is no leaf.
pub fn child(id: u64, k: u64) -> u64
    requires id_nonzero { 0 < id }
    requires k_bound { k < 4 }
    ensures { result ≡ child_of id k }
{
    let low = lsb(id);
    id - low + (2 * k + 1) * (low >> 2)
}

// The first leaf beneath a cell.
pub fn range_min(id: u64) -> u64
    requires { 0 < id }
    ensures { result ≡ first_leaf id }
{
    id - (lsb(id) - 1)
}

// The last leaf beneath a cell.
pub fn range_max(id: u64) -> u64
    requires { 0 < id }
    ensures { result ≡ last_leaf id }
{
    id + (lsb(id) - 1)
}

// Whether a contains b.
pub fn contains(a: u64, b: u64) -> bool
    requires { 0 < a }
    ensures { result ≡ holds a b }
{
    range_min(a) <= b && b <= range_max(a)
}

// Whether a and b have a leaf in common.
pub fn intersects(a: u64, b: u64) -> bool
    requires a_nonzero { 0 < a }
    requires b_nonzero { 0 < b }
    ensures { result ≡ meets a b }
{
    range_min(b) <= range_max(a) && range_min(a) <= range_max(b)
}

// The level of the deepest common ancestor; none, where the faces differ.
// Read from the highest bit at which the two differ, or the higher of their lowest set bits.
pub fn common_ancestor_level(a: u64, b: u64) -> Option<u64>
    requires cell { Cell a }
    requires cell_2 { Cell b }
    ensures { result ≡ common_level a b }
{
    let above = (a ^ b).max(lsb(a)).max(lsb(b)).leading_zeros();
    if above < 3 {
        None
    } else {
        Some(u64::from((above - 3) >> 1))
    }
}
