//! Numbers drawn by lot, from a fixed seed.
ghost use Rattle.std.specs.Prelude.{◌<◌};

// A linear congruential generator, and none of the kit: its draws make the books and calls of which the drill tells.
#[derive(Drop)]
pub(crate) struct Lots {
    state: u64,
}

impl Lots {
    pub(crate) fn new(seed: u64) -> Lots {
        Lots { state: seed }
    }

    // A number below `n`, or 0 where there is none.
    pub(crate) fn below(&mut self, n: u16) -> u16
        ensures { 0 < n → result < n }
    {
        self.state = self.state.wrapping_mul(1103515245).wrapping_add(12345) % 2147483648;
        if n == 0 {
            return 0;
        }
        (self.state / 65536 % n as u64) as u16
    }

    // Mostly a number below `n`, now and then one up to 2 above.
    pub(crate) fn stray(&mut self, n: u16) -> u16 {
        if self.below(24) == 0 {
            n.saturating_add(self.below(3))
        } else {
            self.below(n)
        }
    }
}
