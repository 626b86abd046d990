// What is asked of a run. It stands by itself since its ghost field is of specs/Candidate, which names the candidates.
ghost use Rattle.region.specs.Region.{area_of};
ghost use Rattle.candidate.specs.Candidate.{Asks};

use region::Region;
use run::Request;

// A request, and the region that it is made on, both in the papers' domain.
#[derive(Clone, Copy)]
pub struct Asking<'a> {
    pub request: Request,
    pub region: Region<'a>,
    pub ghost asks: { Asks request (area_of region) },
}
