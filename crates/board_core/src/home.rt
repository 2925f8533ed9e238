//! The home of a code among the slots.
ghost use Rattle.std.specs.Prelude.{◌≡◌, ℕ, ◌^◌, ◌<◌, ◌≤◌};
ghost use Rattle.board_core.specs.Rows.{home_slot};

/// The home slot of a code among `2^bits` slots: `floor(((code * 11400714819323198485) mod 2^64) / 2^(64-bits))`.
/// The factor is 2^64 over the golden ratio, which spreads neighbouring codes (Knuth's multiplicative hashing).
pub fn home_of(bits: u64, code: u64) -> u64
    requires { (1 ≤ bits) × (bits ≤ 24) }
    ensures value { result ≡ home_slot bits code }
    ensures below { result < 2 ^ bits }
{
    code.wrapping_mul(11400714819323198485) >> (64 - bits)
}

/// How many slots a store of so many bits has.
pub fn slots_of(bits: u64) -> u64
    requires { bits ≤ 24 }
    ensures value { result ≡ 2 ^ bits }
    ensures small { (0 < result) × (result < 2 ^ 25) }
{
    1 << bits
}
