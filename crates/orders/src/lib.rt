// A night's orders in one call (paper 02, e): each record is answered as its public function answers it alone, with the room that the orders before it left in the output.
#![tactic(auto)]

ghost use Rattle.std.specs.Prelude.{◌≡◌, ◌≤◌, length};
ghost use Rattle.region.specs.Region.{area_of};
ghost use Rattle.orders.specs.Orders.{kind_of, area_for, with_answer, Served, NightOver};

use cell::Cap;
use covering::{Answer, Ending, Kind};
use queue::Engine;
use refusal::Refusal;
use region::Region;
use run::RegionCoverer;
use totals::Totals;

// How many orders a night may have.
pub const NIGHT_MOST: usize = 256;

// First the answer, once the order was served: its number, 0 for success, and its values. Then what is asked: the quick covering, or else the inner or the outer one; of the
// cell `id` or else of the cap; with these levels, mod and cell limit; and how many steps the run may take. C sees the fields in this order,
// and sees no enum: hence a number and flags.
#[repr(C)]
#[derive(Clone, Copy)]
pub struct Order {
    pub number: u64,
    pub count: usize,
    pub steps: u32,
    pub aside: Totals,
    pub fast: bool,
    pub inner: bool,
    pub cell: bool,
    pub id: u64,
    pub cap: Cap,
    pub coverer: RegionCoverer,
    pub allowance: u32,
}

impl Order {
    // The kind of answer that is asked for.
    fn kind(self) -> Kind
        ensures { result ≡ kind_of self.fast self.inner }
    {
        if self.fast {
            Kind::Fast
        } else if self.inner {
            Kind::Inner(Ending::Covering)
        } else {
            Kind::Outer(Ending::Covering)
        }
    }

    // The region that is asked about.
    #[tactic(auto, unfolding(region::specs::Region::area_of))]
    fn region<'a>(self) -> Region<'a>
        ensures { area_of result ≡ area_for self.cell self.id self.cap }
    {
        if self.cell {
            Region::Cell(self.id)
        } else {
            Region::Cap(self.cap)
        }
    }

    // Serves the order: its list goes behind the places of the output that are taken.
    fn serve(self, used: usize, mem: &mut [u64], out: &mut [u64]) -> Result<Answer, Refusal>
        requires { used ≤ length out.old }
        ensures { Served self used result mem.old mem.new out.old out.new }
    {
        let kind = self.kind();
        let region = self.region();
        let free = &mut out[used..];
        covering::respond(
            Engine::Quick,
            kind,
            self.coverer,
            region,
            self.allowance,
            mem,
            free,
        )
    }

    // Writes its answer into it. By its own fields alone: neither what is asked nor what lies between the fields is stored again, since the record is C's.
    fn write_answer(&mut self, a: Result<Answer, Refusal>)
        ensures { self.new ≡ with_answer self.old a }
    {
        let values = Answer::told(a);
        self.number = refusal::number(a);
        self.count = values.count;
        self.steps = values.steps;
        self.aside = values.aside;
    }
}

// Serves the orders one after another, and writes into each record how it was answered. Refused, with nothing changed, where there are more than 256.
pub fn night(orders: &mut [Order], mem: &mut [u64], out: &mut [u64]) -> Result<(), Refusal>
    ensures { NightOver orders.old orders.new mem.old mem.new out.old out.new result }
{
    if orders.len() > NIGHT_MOST {
        return Err(Refusal::TooManyOrders);
    }
    let mut used: usize = 0;
    for order in orders.iter_mut() {
        let a = order.serve(used, mem, out);
        order.write_answer(a);
        used += order.count;
    }
    Ok(())
}
