//! Discount factors: what money of a later year is worth at the beginning of year 1.
ghost use Rattle.std.specs.Prelude.{◌≡◌, ◌*◌, ◌≤◌};
ghost use Rattle.wasp_fixed.specs.Discounts.{end_factor, half_year, mid_factor, IsRoot};

use crate::numbers::{ONE, mul_div_floor};

/// A rate of one, in hundredths of a percent.
const WHOLE: u64 = 10_000;

/// The worth of `ONE` at the end of so many years, in parts of `ONE`. The rate is in hundredths of a
/// percent per year, at most 10,000; at most 30 years. Each year divides by one plus the rate and rounds down.
#[tactic(auto, using(crate::proofs::Factors::shrinks), unfolding(crate::specs::Discounts::end_factor))]
pub fn discount(rate: u64, years: u64) -> u64
    requires rate { rate ≤ 10000 }
    requires years { years ≤ 30 }
    ensures value { result ≡ end_factor rate years }
    ensures most { result ≤ ONE }
{
    let mut factor = ONE;
    for _ in 0..years {
        factor = mul_div_floor(factor, WHOLE, WHOLE + rate);
    }
    factor
}

/// The worth of `ONE` after half a year, in parts of `ONE`: the greatest number whose square is at most
/// the factor of one year times `ONE`. The rate is in hundredths of a percent per year, at most 10,000.
#[tactic(auto, using(crate::proofs::Factors::half_is))]
pub fn half_factor(rate: u64) -> u64
    requires { rate ≤ 10000 }
    ensures root { IsRoot (end_factor rate 1 * ONE) result }
    ensures value { result ≡ half_year rate }
    ensures most { result ≤ ONE }
{
    (discount(rate, 1) * ONE).isqrt()
}

/// The worth of `ONE` in the middle of a year, so many years later, in parts of `ONE`, rounded down.
/// The rate is in hundredths of a percent per year, at most 10,000; at most 30 years.
pub fn middle(rate: u64, years: u64) -> u64
    requires rate { rate ≤ 10000 }
    requires years { years ≤ 30 }
    ensures value { result ≡ mid_factor rate years }
    ensures most { result ≤ ONE }
{
    mul_div_floor(discount(rate, years), half_factor(rate), ONE)
}
