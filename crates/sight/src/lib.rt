// One look at a cell: what the cell is to a region, in one of three answers, and what the looks at four children are together. The look by a region that is a cell is here too.
#![tactic(auto)]

ghost use Rattle.std.specs.Prelude.{◌≡◌, ℕ, ◌≤◌, ◌<◌};
ghost use Rattle.cellid.specs.CellId.{Cell, level_of, holds, meets};
ghost use Rattle.sight.specs.Sight.{sight_of, passes, is_inside, weight_of, four_bits, four_sights, sights_of};

// What a cell is to a region: they have no point in common, they have, or the region has all of the cell.
#[derive(Clone, Copy, PartialEq, Eq)]
pub enum Sight {
    Outside,
    Crossing,
    Inside,
}

impl Sight {
    // Whether the cell passes: crossing or inside.
    pub fn passes(self) -> bool
        ensures { result ≡ passes self }
    {
        self != Sight::Outside
    }

    pub fn is_inside(self) -> bool
        ensures { result ≡ is_inside self }
    {
        self == Sight::Inside
    }

    // Both in one number: 1 where the cell passes, and 16 more where it lies inside.
    fn weight(self) -> u64
        ensures { (result ≡ weight_of self) × (result ≤ 17) }
    {
        match self {
            Sight::Outside => 0,
            Sight::Crossing => 1,
            Sight::Inside => 17,
        }
    }
}

// Of the four children of a cell those that are not outside, and those inside, as sets by place on the curve.
#[derive(Clone, Copy)]
pub struct Sights {
    pub passing: u64,
    pub inside: u64,
}

// What a cell is to the cell `own`; where `whole` is false only outside or not.
#[tactic(auto, unfolding(crate::specs::Sight::sight_of, crate::specs::Sight::sight_by))]
pub fn look_at(own: u64, id: u64, whole: bool) -> Sight
    requires { (0 < own) × (0 < id) }
    ensures { result ≡ sight_of (meets own) (holds own) whole id }
{
    if !cellid::intersects(own, id) {
        Sight::Outside
    } else if whole && cellid::contains(own, id) {
        Sight::Inside
    } else {
        Sight::Crossing
    }
}

// ---- four looks

// Four looks as two sets, the first the lowest bit.
pub fn four(a: Sight, b: Sight, c: Sight, d: Sight) -> Sights
    ensures { result ≡ four_sights a b c d }
{
    let all = a.weight() + 2 * b.weight() + 4 * c.weight() + 8 * d.weight();
    Sights {
        passing: all % 16,
        inside: all / 16,
    }
}

// What the four children of a valid id that is no leaf are to a region, by a look at one cell.
#[tactic(auto, using(cellid::proofs::Laws::cell_pos))]
pub fn look_children_by<F: Fn(u64) -> Sight>(id: u64, look: F) -> Sights
    requires parted { Cell id × (level_of id < 30) }
    requires looks { (child : ℕ) → Cell child → F.pre look child }
    ensures { (of : ℕ → Sight) → ((child : ℕ) (s : Sight) → Cell child → F.post look child s → s ≡ of child) → result ≡ sights_of of id }
{
    four(
        look(cellid::child(id, 0)),
        look(cellid::child(id, 1)),
        look(cellid::child(id, 2)),
        look(cellid::child(id, 3)),
    )
}

// What the four children of a valid id that is no leaf are to the cell `own`.
#[tactic(auto, using(cellid::proofs::Laws::cell_pos))]
pub fn look_children(own: u64, id: u64, whole: bool) -> Sights
    requires { (0 < own) × Cell id × (level_of id < 30) }
    ensures { result ≡ sights_of (sight_of (meets own) (holds own) whole) id }
{
    look_children_by(id, move |child| look_at(own, child, whole))
}
