ghost use Rattle.std.specs.Prelude.{◌≡◌, ◌+◌, nat_le};
ghost use Rattle.ir_core.specs.Fits.{is_ready};
ghost use Rattle.std.proofs.Common.{rules};

use crate::stamp::Stamp;

/// The cycle in which an operation starts, counted from the beginning of its block or iteration, and the number of its unit within its class.
#[derive(Clone, Copy, PartialEq, Eq)]
pub struct Timed {
    pub start: u64,
    pub bound: u32,
}

/// Whether a start is so many cycles behind another one, where it is counted from so many cycles further on.
fn is_in_time(start: u64, latency: u32, later: u64, further: u64) -> bool
    ensures { result ≡ nat_le (start + latency) (later + further) }
{
    u128::from(start) + u128::from(latency) <= u128::from(later) + u128::from(further)
}

impl Stamp for Timed {
    ghost start = { λ one. one.start };

    ghost number = { λ one. one.bound };

    ghost is_ready = { is_ready };

    ghost is_ready_sooner = { Prim.search rules };

    ghost is_ready_onward = { Prim.search rules };

    fn time(&self) -> u64 {
        self.start
    }

    fn unit(&self) -> u32 {
        self.bound
    }

    fn fits(&self, later: &Self, latency: u32, distance: u32, ii: u32) -> bool {
        let further = u64::from(ii) * u64::from(distance);
        is_in_time(self.start, latency, later.start, further)
    }
}
