//! The periods of a year while maintenance is placed in them.
ghost use Rattle.std.specs.Prelude.{◌≡◌, ℕ, ◌+◌, ◌*◌, ◌<◌, ◌≤◌, ◌^◌, length, All};
ghost use Rattle.loading_order.specs.Maintenance.{is_better, most_free, place_hours, starting};

/// The greatest full capacity of a unit, in MW.
pub const MAX_FULL: u64 = 20_000;

/// A period while the maintenance of one unit is placed. Its free energy is the supply less the
/// need, which may be below 0.
#[derive(Clone, Copy, Debug, PartialEq, Eq)]
pub struct Period {
    /// The energy of the installed capacity, in MWh.
    pub supply: u64,
    /// The energy of the peak and of what is in maintenance, in MWh.
    pub need: u64,
    /// The hours that the unit is out here.
    pub hours: u64,
}

/// Whether the unit may rather be out in this period than in the other one.
fn is_better(one: &Period, other: &Period) -> bool
    requires one { (one.now.supply < 2 ^ 62) × (one.now.need < 2 ^ 62) }
    requires other { (other.now.supply < 2 ^ 62) × (other.now.need < 2 ^ 62) }
    ensures { result ≡ is_better one.now other.now }
{
    let open = one.hours == 0;
    let more = other.supply + one.need < one.supply + other.need;
    open && (other.hours != 0 || more)
}

/// The place of the period with the most free energy among those in which the unit has no hours,
/// the earliest on a tie.
fn most_free(periods: &[Period]) -> usize
    requires some { 0 < length periods.now }
    requires fits { All (λ p. (p.supply < 2 ^ 62) × (p.need < 2 ^ 62)) periods.now }
    ensures value { result ≡ most_free periods.now }
    ensures within { result < length periods.now }
{
    let mut best = 0;
    for place in 1..periods.len() {
        if is_better(&periods[place], &periods[best]) {
            best = place;
        }
    }
    best
}

/// Places the repair hours of a unit of `full` MW in periods of `hours` hours each.
pub fn place_unit(full: u64, repair: u64, hours: u64, periods: &mut [Period])
    requires full { full ≤ MAX_FULL }
    requires repair { repair ≤ 8760 }
    requires hours { 1 ≤ hours }
    requires some { 0 < length periods.old }
    requires fits { All (λ p. (p.supply < 2 ^ 62) × (p.need + full * repair < 2 ^ 62)) periods.old }
    ensures value { periods.new ≡ place_hours hours full (length periods.old) repair periods.old }
    ensures bound { (bound : ℕ) → All (λ p. (p.supply < 2 ^ 62) × (p.need + full * repair < bound)) periods.old → All (λ p. (p.supply < 2 ^ 62) × (p.need < bound)) periods.new }
    ensures hours { All (λ p. p.hours ≤ hours) periods.old → All (λ p. p.hours ≤ hours) periods.new }
{
    let mut left = repair;
    for _step in 0..periods.len() {
        if left == 0 {
            break;
        }
        let at = most_free(periods);
        let part = left.min(hours);
        let period = periods[at];
        periods[at] = Period {
            supply: period.supply,
            need: period.need + full * part,
            hours: part,
        };
        left -= part;
    }
}

/// Writes the periods before any maintenance, from installed capacities and peaks in MW.
pub fn start_periods(capacities: &[u64], peaks: &[u64], hours: u64, periods: &mut [Period])
    requires same { length capacities.now ≡ length peaks.now }
    requires room { length peaks.now ≡ length periods.old }
    requires hours { hours ≤ 8760 }
    requires capacities { All (λ c. c < 2 ^ 40) capacities.now }
    requires peaks { All (λ p. p < 2 ^ 40) peaks.now }
    ensures value { periods.new ≡ starting hours capacities.now peaks.now }
    ensures bound { All (λ p. (p.supply < 2 ^ 62) × (p.need < 2 ^ 61)) periods.new }
    ensures hours { All (λ p. p.hours ≤ hours) periods.new }
{
    for m in 0..peaks.len() {
        periods[m] = Period {
            supply: capacities[m] * hours,
            need: peaks[m] * hours,
            hours: 0,
        };
    }
}
