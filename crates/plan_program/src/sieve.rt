//! Which starts may be at most a configuration, 64 at a time.
ghost use Rattle.std.specs.Prelude.{◌≡◌, ℕ, ◌+◌, ◌*◌, ◌<◌, ◌≤◌, [], All, IfOk, length, slice_index, slice_index_or};
ghost use Rattle.std.specs.Int.{bit_at};
ghost use Rattle.plant_data.specs.Configs.{IsAtMost};
ghost use Rattle.plan_program.specs.Sieve.{HasBit, IsBlock, IsRow, IsSieve, count_at};
ghost use Rattle.plan_program.specs.Starts.{start_at};

use crate::come::Start;
use plant_data::{Config, Listed, MAX_COUNT};
use std::alloc::{AllocError, Global};

/// For each 64 starts a row of words for each candidate.
pub type Sieve = Listed<Listed<Listed<u64>>>;

/// So few starts are walked over without a sieve.
const FEW: usize = 48;

/// Sets the bit of each of 64 starts from `base` on in the word of its count of a candidate.
fn mark(starts: &[Start], base: usize, k: usize, row: &mut [u64])
    requires base { base ≤ length starts.now }
    requires counts { length row.old ≡ 129 }
    requires wide { All (λ s. k < length s.standing.config) starts.now }
    ensures counts { length row.new ≡ 129 }
    ensures marked { (i : ℕ) → i < 64 → base + i < length starts.now → bit_at (slice_index row.new (count_at starts.now k (base + i))) i ≡ 1 }
{
    let more = (starts.len() - base).min(64);
    for i in 0..more {
        let count = starts[base + i].standing.config.get(k) as usize;
        row[count] |= 1 << i;
    }
}

/// Adds to each word the bits of those before it.
fn spread(row: &mut [u64])
    requires counts { length row.old ≡ 129 }
    ensures counts { length row.new ≡ 129 }
    ensures spread { (u v i : ℕ) → u ≤ v → v < 129 → bit_at (slice_index row.old u) i ≡ 1 → bit_at (slice_index row.new v) i ≡ 1 }
{
    for v in 1..row.len() {
        row[v] |= row[v - 1];
    }
}

/// So many words without a bit.
fn zeros(alloc: Global, count: usize) -> Result<Vec<u64>, AllocError>
    ensures { IfOk result (λ row. length row.items ≡ count) }
{
    vec![in alloc; 0u64; count]
}

/// The words of a candidate for 64 starts.
fn row_of(alloc: Global, starts: &[Start], base: usize, k: usize) -> Result<Vec<u64>, AllocError>
    requires base { base ≤ length starts.now }
    requires wide { All (λ s. k < length s.standing.config) starts.now }
    ensures { IfOk result (λ row. IsRow starts.now base k row.items) }
{
    let mut row = zeros(alloc, MAX_COUNT as usize + 1)?;
    mark(starts, base, k, row.as_mut_slice());
    spread(row.as_mut_slice());
    Ok(row)
}

/// The rows of all candidates for 64 starts.
fn block_of(
    alloc: Global,
    starts: &[Start],
    base: usize,
    width: usize,
) -> Result<Vec<Listed<u64>>, AllocError>
    requires base { base ≤ length starts.now }
    requires wide { All (λ s. width ≤ length s.standing.config) starts.now }
    ensures { IfOk result (λ block. IsBlock starts.now base width block.items) }
{
    let mut block = Vec::with_capacity(alloc, width)?;
    for k in 0..width {
        block.push(Listed::new(row_of(alloc, starts, base, k)?))?;
    }
    Ok(block)
}

/// The sieve of the starts of configurations of `width` candidates, without a block where they are few.
pub fn sieve_of(alloc: Global, starts: &[Start], width: usize) -> Result<Sieve, AllocError>
    requires wide { All (λ s. width ≤ length s.standing.config) starts.now }
    ensures { IfOk result (λ sieve. IsSieve starts.now width sieve) }
{
    let blocks = if starts.len() < FEW {
        0
    } else {
        starts.len() / 64 + 1
    };
    let mut sieve = Vec::with_capacity(alloc, blocks)?;
    for w in 0..blocks {
        sieve.push(Listed::new(block_of(alloc, starts, 64 * w, width)?))?;
    }
    Ok(Listed::new(sieve))
}

/// The bits that all words of a configuration's counts have.
fn mask_of(block: &[Listed<u64>], to: &Config) -> u64
    requires width { length block.now ≡ length to.now }
    requires counts { (k : ℕ) → k < length block.now → length (slice_index_or block.now k []) ≡ 129 }
    ensures { (i : ℕ) → i < 64 → ((k : ℕ) → k < length block.now → slice_index to.now k < 129 → HasBit block.now to.now i k) → bit_at result i ≡ 1 }
{
    let mut mask = u64::MAX;
    for k in 0..block.len() {
        mask &= block[k].as_slice()[to.get(k) as usize];
    }
    mask
}

/// The first bit that is set from `skip` on, or 64.
fn first_bit(mask: u64, skip: usize) -> usize
    requires { skip < 64 }
    ensures later { skip ≤ result }
    ensures within { result ≤ 64 }
    ensures unset { (i : ℕ) → skip ≤ i → i < result → bit_at mask i ≡ 0 }
{
    let rest = mask & (u64::MAX << skip);
    if rest == 0 {
        return 64;
    }
    rest.trailing_zeros() as usize
}

/// The first place of a block from `skip` on whose start may be at most a configuration, or 64.
fn next_in(block: &[Listed<u64>], starts: &[Start], base: usize, to: &Config, skip: usize) -> usize
    requires block { IsBlock starts.now base (length to.now) block.now }
    requires skip { skip < 64 }
    ensures later { skip ≤ result }
    ensures within { result ≤ 64 }
    ensures skipped { (i : ℕ) → skip ≤ i → i < result → base + i < length starts.now → IsAtMost (start_at starts.now (base + i)).standing.config to.now → ⊥ }
{
    first_bit(mask_of(block, to), skip)
}

/// The first place from `from` on whose start may be at most a configuration, or the number of starts: each
/// start that is left out is not.
pub fn next(sieve: &Sieve, starts: &[Start], to: &Config, from: usize) -> usize
    requires sieve { IsSieve starts.now (length to.now) sieve.now }
    requires from { from ≤ length starts.now }
    ensures later { from ≤ result }
    ensures within { result ≤ length starts.now }
    ensures skipped { (i : ℕ) → from ≤ i → i < result → IsAtMost (start_at starts.now i).standing.config to.now → ⊥ }
{
    let blocks = sieve.as_slice();
    for w in from / 64..blocks.len() {
        let base = 64 * w;
        let bit = next_in(
            blocks[w].as_slice(),
            starts,
            base,
            to,
            from.max(base) - base,
        );
        if bit < 64 {
            return (base + bit).min(starts.len());
        }
    }
    from.max(64 * blocks.len()).min(starts.len())
}
