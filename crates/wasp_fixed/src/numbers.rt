//! Numbers with nine decimals, and rates in parts of ten thousand.
ghost use Rattle.std.specs.Prelude.{◌≢◌, ◌≡◌, ◌*◌, ◌/◌, ◌^◌, ◌<◌};

/// One, in parts of a probability, of a share of time or of a discount factor.
pub const ONE: u64 = 1_000_000_000;

/// A rate of one, in parts of an outage rate or of an availability.
pub const M: u64 = 10_000;

/// `a * b / c`, rounded down, with no overflow on the way. `c` is not 0, and the answer is below 2^64.
pub fn mul_div_floor(a: u64, b: u64, c: u64) -> u64
    requires divisor { c ≢ 0 }
    requires fits { a * b / c < 2 ^ 64 }
    ensures { result ≡ a * b / c }
{
    (u128::from(a) * u128::from(b) / u128::from(c)) as u64
}
