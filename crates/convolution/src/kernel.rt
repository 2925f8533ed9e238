//! The mean over a unit's two states, for one cell.
ghost use Rattle.std.specs.Prelude.{◌≡◌, ◌+◌, ◌*◌, ◌/◌, ◌^◌, ◌≤◌};
ghost use Rattle.wasp_fixed.specs.declared.numbers.TheConstants.{M, ONE};
ghost use Rattle.convolution.specs.EquivalentLoad.{two_states};

use wasp_fixed::{M, ONE};

/// The rate of one, as a factor of 32-bit products.
const RATE_ONE: u32 = M as u32;

/// The weights of a unit's two states, in parts of `M`, and the shares by which a mean is estimated,
/// in parts of 2^17.
#[derive(Clone, Copy)]
pub struct Weights {
    keep: u32,
    outage: u32,
    keep_share: u32,
    outage_share: u32,
    ghost whole: { keep + outage ≡ M },
    ghost keep_share_is: { keep_share ≡ keep * 2 ^ 17 / M },
    ghost outage_share_is: { outage_share ≡ outage * 2 ^ 17 / M },
}

impl Weights {
    /// The weights at an outage rate in parts of `M`.
    pub fn new(outage: u32) -> Self
        requires { outage ≤ M }
        ensures { result.outage ≡ outage }
    {
        let keep = RATE_ONE - outage;
        Weights {
            keep,
            outage,
            keep_share: (keep << 17) / RATE_ONE,
            outage_share: (outage << 17) / RATE_ONE,
        }
    }

    /// The mean of `up` and `out`, rounded down, with one 32-bit division.
    ///
    /// Exact, since `M * estimate <= total < M * estimate + 2^32`. The estimate takes the values
    /// without their low 15 bits, and the shares rounded down, so it is never too high; what it
    /// lacks is below `M * 2^15 + (up + out) / 2^15 * M / 4 + M`, less than 5 * 10^8. So the compiler
    /// can take both 64-bit lines modulo 2^32.
    #[inline(always)]
    pub fn mean(self, up: u32, out: u32) -> u32
        requires up { up ≤ ONE }
        requires out { out ≤ ONE }
        ensures value { result ≡ two_states self.outage up out / M }
        ensures small { result ≤ ONE }
    {
        let estimate = ((up >> 15) * self.keep_share + (out >> 15) * self.outage_share) >> 2;
        let total = self.keep as u64 * up as u64 + self.outage as u64 * out as u64;
        let rest = (total - estimate as u64 * M) as u32;
        estimate + rest / RATE_ONE
    }
}
