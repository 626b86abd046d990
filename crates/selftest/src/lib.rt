// A request answered by the quick engine, by the plain one, or by both, one after the other, with a look whether they agree: the hall's self-test. The two are
// proved to agree on every request, so that a disagreement, on a machine, tells of a fault of that machine.
#![tactic(auto)]

ghost use Rattle.std.specs.Prelude.{true, IsTrue, ◌↔◌, ◌≡◌, ◌≤◌, min, length, take};
ghost use Rattle.cellunion.specs.Memory.{zeros, laid};
ghost use Rattle.covering.specs.Covering.{result_of, Answered};
ghost use Rattle.region.specs.Region.{area_of};
ghost use Rattle.selftest.specs.Selftest.{engines_of};

use covering::{Answer, Kind};
use queue::Engine;
use refusal::Refusal;
use region::Region;
use run::RegionCoverer;

// No list of a run is longer: the words of the first engine's are held meanwhile.
const LIST_MOST: usize = 1024;

// Which engines answer a request.
#[derive(Clone, Copy)]
pub enum Engines {
    One(Engine),
    Both,
}

// By a number: 0 the quick one, 1 the plain one, any other both.
impl From<u64> for Engines {
    ghost from_gives = { λ n engines. engines ≡ engines_of n };

    fn from(n: u64) -> Engines {
        match n {
            0 => Engines::One(Engine::Quick),
            1 => Engines::One(Engine::Plain),
            _ => Engines::Both,
        }
    }
}

// An answer, and whether all engines that were asked gave it: there is one either way.
#[derive(Clone, Copy)]
pub struct Tested {
    pub answer: Result<Answer, Refusal>,
    pub agree: bool,
}

// Whether two answers are one, and the words of their lists. A function, for its contract: no other says what is compared.
fn same(
    a: Result<Answer, Refusal>,
    b: Result<Answer, Refusal>,
    words: &[u64],
    others: &[u64],
) -> bool
    ensures { IsTrue result ↔ ((a ≡ b) × (words.now ≡ others.now)) }
{
    a == b && words == others
}

// Moves the first words of an output, `count` or as many as there is room for, to where they are held, and leaves zeros in their place, so that nothing of the
// first engine's list can be taken for the second's. Gives their number.
fn hold(out: &mut [u64], count: usize, held: &mut [u64]) -> usize
    requires { count ≤ length out.old }
    ensures { (result ≡ min count (length held.old)) × (held.new ≡ laid 0 (take result out.old) held.old) × (out.new ≡ laid 0 (zeros result) out.old) }
{
    let n = count.min(held.len());
    cellunion::lay(&out[..n], held);
    cellunion::clear(out, 0, n);
    n
}

// The plain engine's answer held against the quick one's, which stands.
fn respond_twice(
    kind: Kind,
    c: RegionCoverer,
    g: Region<'_>,
    allowance: u32,
    mem: &mut [u64],
    out: &mut [u64],
    held: &mut [u64],
) -> Tested
    ensures { Answered (result_of kind c (area_of g.entry) allowance (length mem.old) (length out.old)) result.answer mem.old mem.new out.old out.new × (result.agree ≡ true) }
{
    let first = covering::respond(Engine::Plain, kind, c, g, allowance, mem, out);
    let values = Answer::told(first);
    let n = hold(out, values.count, held);
    let answer = covering::respond(Engine::Quick, kind, c, g, allowance, mem, out);
    let agree = same(first, answer, &held[..n], &out[..n]);
    Tested { answer, agree }
}

// A request of any kind, answered by one engine or by both. The answer, the working memory and the output are the same whichever is asked.
pub fn respond(
    by: Engines,
    kind: Kind,
    c: RegionCoverer,
    g: Region<'_>,
    allowance: u32,
    mem: &mut [u64],
    out: &mut [u64],
) -> Tested
    ensures { Answered (result_of kind c (area_of g.entry) allowance (length mem.old) (length out.old)) result.answer mem.old mem.new out.old out.new × (result.agree ≡ true) }
{
    match by {
        Engines::One(engine) => Tested {
            answer: covering::respond(engine, kind, c, g, allowance, mem, out),
            agree: true,
        },
        Engines::Both => {
            let mut held = [0; LIST_MOST];
            respond_twice(kind, c, g, allowance, mem, out, &mut held)
        }
    }
}
