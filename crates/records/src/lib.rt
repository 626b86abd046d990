// Queued candidates as records of four words in lent memory, place i in the words from 4i on; what each costs, and which of two goes first: the one of the
// lesser cost; of equal costs, the one of the smaller id; of equal ids, the one that grew from the earlier start cell. What a level and a child weigh is the
// caller's choice: by it the order is that of one edition or the other. How a queue keeps the records is the crates heap, plain and queue.
#![tactic(auto)]

ghost use Rattle.std.specs.Prelude.{◌≡◌, ◌+◌, ◌*◌, ◌/◌, ◌<◌, ◌≤◌};
ghost use Rattle.std.specs.Int.Count.{ones};
ghost use Rattle.cellid.specs.CellId.{level_of};
ghost use Rattle.run.specs.Run.{cost_of};
ghost use Rattle.records.specs.Records.{cost_r, from_r, record_of, before, get_r, put_r, cap_r};

// A candidate: its cell, the Hilbert places of its children, and of those that are terminal; and its rank, eight times its cost and the place of its start cell.
#[derive(Clone, Copy)]
pub struct Rec {
    pub id: u64,
    pub present: u64,
    pub terminal: u64,
    pub rank: u64,
}

// How many places a set has. A set of four places is counted by a table of 16 digits.
pub fn count(x: u64) -> u64
    ensures value { result ≡ ones x }
    ensures upper_bound { result ≤ 64 }
{
    if x < 16 {
        return (0x4332_3221_3221_2110 >> (4 * x)) % 16;
    }
    x.count_ones() as u64
}

// What a cell with these children costs, where a child weighs `weight` and a level `weight` children: smaller cells, more children and more terminals cost more.
fn cost_of(weight: u64, id: u64, present: u64, terminal: u64) -> u64
    requires { weight ≤ 65 }
    ensures { (result ≡ cost_of weight (level_of id) (ones present) (ones terminal)) × (result ≤ 131000) }
{
    (cellid::level(id) * weight + count(present)) * weight + count(terminal)
}

// The record of a cell with these children that grew from the start cell at the place `from`.
#[tactic(auto, unfolding(crate::specs::Records::record_of))]
pub fn record_of(weight: u64, from: u64, id: u64, present: u64, terminal: u64) -> Rec
    requires { (weight ≤ 65) × (from < 8) }
    ensures { result ≡ record_of weight from id present terminal }
{
    Rec {
        id,
        present,
        terminal,
        rank: 8 * cost_of(weight, id, present, terminal) + from,
    }
}

impl Rec {
    // Its cost.
    pub fn cost(self) -> u64
        ensures { result ≡ cost_r self }
    {
        self.rank / 8
    }

    // The place of the start cell that its cell grew from.
    pub fn from(self) -> u64
        ensures { result ≡ from_r self }
    {
        self.rank % 8
    }

    // Whether it goes before y.
    pub fn goes_first(self, y: Rec) -> bool
        ensures { result ≡ before self y }
    {
        (
            self.cost(),
            self.id,
            self.from(),
            self.present,
            self.terminal,
        ) < (y.cost(), y.id, y.from(), y.present, y.terminal)
    }
}

// The record at the place i: its words one by one, in place of a part of the slice that would have to be taken apart.
#[tactic(auto, unfolding(crate::specs::Records::get_r))]
pub fn get(m: &[u64], i: usize) -> Rec
    requires { i < cap_r m.now }
    ensures { result ≡ get_r m.now i }
{
    Rec {
        id: m[4 * i],
        present: m[4 * i + 1],
        terminal: m[4 * i + 2],
        rank: m[4 * i + 3],
    }
}

// Writes r at the place i.
#[tactic(auto, unfolding(crate::specs::Records::put_r))]
pub fn put(m: &mut [u64], i: usize, r: Rec)
    requires { i < cap_r m.old }
    ensures { m.new ≡ put_r m.old i r }
{
    m[4 * i] = r.id;
    m[4 * i + 1] = r.present;
    m[4 * i + 2] = r.terminal;
    m[4 * i + 3] = r.rank;
}
