//! How many loads are above each megawatt.
ghost use Rattle.std.specs.Prelude.{◌≡◌, ◌+◌, ◌<◌, ◌≤◌, ℕ, All, IfOk, drop, length, slice_index, sum};
ghost use Rattle.hourly_load.specs.Hours.{above, exactly};

use std::alloc::Global;
use wasp_fixed::OutOfMemory;

/// Makes count x the number of loads of x + 1 MW.
fn count_loads(loads: &[u64], counts: &mut [u64])
    requires few { length loads.now ≤ 8784 }
    requires within { All (λ load. load ≤ length counts.old) loads.now }
    requires none { (x : ℕ) → slice_index counts.old x ≡ 0 }
    requires nothing { sum counts.old ≡ 0 }
    ensures len { length counts.new ≡ length counts.old }
    ensures value { (x : ℕ) → slice_index counts.new x ≡ exactly loads.now (x + 1) }
    ensures sum { sum counts.new ≤ length loads.now }
{
    for load in loads {
        if *load > 0 {
            counts[*load as usize - 1] += 1;
        }
    }
}

/// Makes each count the sum of itself and those behind it.
fn sum_from_end(counts: &mut [u64])
    requires small { sum counts.old ≤ 8784 }
    ensures len { length counts.new ≡ length counts.old }
    ensures value { (x : ℕ) → slice_index counts.new x ≡ sum (drop x counts.old) }
{
    let mut sum = 0;
    let mut x = counts.len();
    while x > 0 {
        x -= 1;
        sum += counts[x];
        counts[x] = sum;
    }
}

/// Makes count x the number of loads above x MW.
fn count_above(loads: &[u64], counts: &mut [u64])
    requires few { length loads.now ≤ 8784 }
    requires within { All (λ load. load ≤ length counts.old) loads.now }
    requires none { (x : ℕ) → slice_index counts.old x ≡ 0 }
    requires nothing { sum counts.old ≡ 0 }
    ensures len { length counts.new ≡ length counts.old }
    ensures value { (x : ℕ) → slice_index counts.new x ≡ above loads.now x }
{
    count_loads(loads, counts);
    sum_from_end(counts);
}

/// The number of loads above each megawatt below the peak, from 0 MW on.
pub(crate) fn loads_above(alloc: Global, loads: &[u64], peak: u64) -> Result<Vec<u64>, OutOfMemory>
    requires few { length loads.now ≤ 8784 }
    requires within { All (λ load. load ≤ peak) loads.now }
    requires small { peak ≤ 65535 }
    ensures len { IfOk result (λ counts. length counts.items ≡ peak) }
    ensures value { IfOk result (λ counts. (x : ℕ) → slice_index counts.items x ≡ above loads.now x) }
{
    let mut counts = vec![in alloc; 0u64; peak as usize]?;
    count_above(loads, counts.as_mut_slice());
    Ok(counts)
}
