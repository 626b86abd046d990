// What the exports of `capi_c` share: a request's numbers and a cap made of what C passes, a call answered, and an answer's number and values told.
#![tactic(auto)]

ghost use Rattle.std.specs.Prelude.{◌≡◌, length};
ghost use Rattle.covering.specs.Covering.{result_of};
ghost use Rattle.region.specs.Region.{area_of};
ghost use Rattle.ranges.specs.Ranges.{words_of};
ghost use Rattle.refusal.specs.Refusal.{number_told};
ghost use Rattle.capi.specs.Calls.{region_coverer, cap_of, Told, Called, CalledBy, NamesTold};

use cell::Cap;
use covering::{Answer, Kind};
use point::Point;
use queue::Engine;
use refusal::Refusal;
use region::Region;
use run::RegionCoverer;
use selftest::Engines;

// The numbers of a request.
pub fn coverer(
    min_level: u64,
    max_level: u64,
    level_mod: u64,
    max_cells: u64,
    edition: u64,
) -> RegionCoverer
    ensures { result ≡ region_coverer min_level max_level level_mod max_cells edition }
{
    RegionCoverer {
        min_level,
        max_level,
        level_mod,
        max_cells,
        edition,
    }
}

// A cap by its centre's coordinates and its squared chord radius.
pub fn cap(x: f64, y: f64, z: f64, radius: f64) -> Cap
    ensures { result ≡ cap_of x y z radius }
{
    let center = Point { x, y, z };
    Cap { center, radius }
}

// The number of an answer; its values go through the references, which C lends one by one.
fn tell(a: Result<Answer, Refusal>, count: &mut u64, steps: &mut u64, aside: &mut [u64; 6]) -> u64
    ensures { Told a result count.new steps.new aside.new }
{
    let values = Answer::told(a);
    *count = values.count as u64;
    *steps = values.steps as u64;
    let six = values.aside.six;
    *aside = six;
    refusal::number(a)
}

// A request of any kind for any region, by the quick engine.
pub fn call(
    kind: Kind,
    c: RegionCoverer,
    g: Region<'_>,
    allowance: u32,
    mem: &mut [u64],
    out: &mut [u64],
    count: &mut u64,
    steps: &mut u64,
    aside: &mut [u64; 6],
) -> u64
    ensures { Called (result_of kind c (area_of g.entry) allowance (length mem.old) (length out.old)) result mem.old mem.new out.old out.new count.new steps.new aside.new }
{
    let a = covering::respond(Engine::Quick, kind, c, g, allowance, mem, out);
    tell(a, count, steps, aside)
}

// The same by the engines that a number stands for, 0 the quick one, 1 the plain one, any other both; whether they agree, 1 or 0, goes through `agree`.
pub fn call_by(
    engines: u64,
    kind: Kind,
    c: RegionCoverer,
    g: Region<'_>,
    allowance: u32,
    mem: &mut [u64],
    out: &mut [u64],
    count: &mut u64,
    steps: &mut u64,
    aside: &mut [u64; 6],
    agree: &mut u64,
) -> u64
    ensures { CalledBy (result_of kind c (area_of g.entry) allowance (length mem.old) (length out.old)) result mem.old mem.new out.old out.new count.new steps.new aside.new agree.new }
{
    let t = selftest::respond(Engines::from(engines), kind, c, g, allowance, mem, out);
    *agree = t.agree as u64;
    tell(t.answer, count, steps, aside)
}

// The number of a list's answer; how many words were written goes through the reference.
#[tactic(auto, unfolding(ranges::specs::Ranges::words_of))]
pub fn tell_words(a: Result<usize, Refusal>, count: &mut u64) -> u64
    ensures { (result ≡ number_told a) × (count.new ≡ words_of a) }
{
    *count = a.unwrap_or(0) as u64;
    refusal::number(a)
}

// The number of an answer about tokens; how many bytes or ids were written, and the number from 1 of the first line or id that is bad, go through the
// references.
pub fn tell_names(a: Result<usize, Refusal>, count: &mut u64, first: &mut u64) -> u64
    ensures { NamesTold a result count.new first.new }
{
    *first = match a {
        Err(Refusal::Malformed(k)) => k,
        _ => 0,
    };
    tell_words(a, count)
}
