// A request's numbers that lie in the domain. They stand by themselves since their ghost field is of specs/Memory, which names this crate's types.
ghost use Rattle.fast.specs.Memory.{NumbersFit};

use run::RegionCoverer;

// As far as the functions here ask it.
#[derive(Clone, Copy)]
pub struct Numbers {
    pub coverer: RegionCoverer,
    pub ghost fit: { NumbersFit coverer },
}
