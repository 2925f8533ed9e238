//! Units in the order in which they are loaded.
ghost use Rattle.std.specs.Prelude.{◌≡◌, ◌≤◌, IsTrue, length, take};

/// The greatest number of units of a list.
pub const MAX_UNITS: usize = 128;

/// A unit of a list: its base block is loaded, and then its peak block.
#[derive(Clone, Copy, Debug)]
pub struct Turn {
    /// The cells of its base block, at most `full`.
    pub least: u64,
    /// The cells of both blocks, at most 65,536.
    pub full: u64,
    /// Its outage rate in the period, in parts of `M`, at most `M`.
    pub rate: u64,
}

/// Whether two turns are the same.
fn same(one: &Turn, other: &Turn) -> bool
    ensures { IsTrue result → one.now ≡ other.now }
{
    one.least == other.least && one.full == other.full && one.rate == other.rate
}

/// Whether a list begins with another one.
pub fn begins_with(turns: &[Turn], start: &[Turn]) -> bool
    ensures { IsTrue result → start.now ≡ take (length start.now) turns.now }
{
    if start.len() > turns.len() {
        return false;
    }
    for k in 0..start.len() {
        if !same(&start[k], &turns[k]) {
            return false;
        }
    }
    true
}
