// The queue of candidates in lent memory, kept by either engine: as a heap, the quick way, or as a plain list. What the records are and which goes first is the
// crate records. `m` is all of the memory and n how many records stand in it, since the next one goes behind them.
#![tactic(auto)]

ghost use Rattle.std.specs.Prelude.{◌≡◌, ◌<◌};
ghost use Rattle.records.specs.Records.{cap_r};
ghost use Rattle.queue.specs.Queue.{add_r, next_r, rest_r};

use records::Rec;

// Which engine keeps the queue: the quick one, as a heap, or the plain one, as a list that is looked through at each step.
// A value and no type parameter: it is chosen at run time, by a line's `engine=`, and a parameter would write the whole run into the programs twice.
#[derive(Clone, Copy)]
pub enum Engine {
    Quick,
    Plain,
}

impl Engine {
    // Adds r to the queue of the first n records.
    #[tactic(auto, unfolding(crate::specs::Queue::add_r))]
    pub fn add(self, m: &mut [u64], n: usize, r: Rec)
        requires { n < cap_r m.old }
        ensures { m.new ≡ add_r self m.old n r }
    {
        match self {
            Engine::Quick => heap::push(m, n, r),
            Engine::Plain => plain::add(m, n, r),
        }
    }

    // Takes the one that goes first of the first n + 1 records.
    #[tactic(auto, unfolding(crate::specs::Queue::next_r, crate::specs::Queue::rest_r))]
    pub fn take(self, m: &mut [u64], n: usize) -> Rec
        requires { n < cap_r m.old }
        ensures value { result ≡ next_r self m.old n }
        ensures m_after { m.new ≡ rest_r self m.old n }
    {
        match self {
            Engine::Quick => heap::pop(m, n),
            Engine::Plain => plain::take(m, n),
        }
    }
}
