// Six totals, one for each start cell of a run by its place, 0 to 5: paper 02, h, "six totals in place of one, zero where there is no such start cell".
#![tactic(auto)]

ghost use Rattle.std.specs.Prelude.{◌≡◌, ◌<◌};
ghost use Rattle.totals.specs.Totals.{total_at, with_total};

// The totals by place. C sees six u64 in this order. Two are the same if all six are, which is the derived equality.
#[repr(C)]
#[derive(Clone, Copy, PartialEq, Eq)]
pub struct Totals {
    pub six: [u64; 6],
}

impl Totals {
    // Six zeros.
    pub const NONE: Totals = Totals { six: [0; 6] };

    // The total at a place.
    pub fn get(self, place: u64) -> u64
        requires { place < 6 }
        ensures { result ≡ total_at self place }
    {
        self.six[place as usize]
    }

    // The totals with n at a place.
    pub fn with(mut self, place: u64, n: u64) -> Totals
        requires { place < 6 }
        ensures { result ≡ with_total self place n }
    {
        self.six[place as usize] = n;
        self
    }
}
