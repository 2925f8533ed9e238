//! Laws: a deck has one refusal, and a case one report.
ghost use Rattle.case_study.specs.Oneness.{RefusalsAreOne, ReportsAreOne};

use tunnel_configs::listings_are_one;

/// A deck is refused for one reason, and for none where a PLAN on it is taken.
pub fn refusals_are_one()
    ensures { RefusalsAreOne }
{
    listings_are_one();
}

/// A case of a deck has one report.
pub fn reports_are_one()
    ensures { ReportsAreOne }
{
    listings_are_one();
}
