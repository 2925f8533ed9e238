//! Laws of certificates.
ghost use Rattle.plan_certificate.specs.Certificate.{VerdictsAreOne};
ghost use Rattle.plan_certificate.specs.Reading.{ReadingsAreOne, SaidVerdictsAreOne};
ghost use Rattle.plan_certificate.specs.Truth.{SolutionsAreCertified, YesMeansTrue};

/// A certificate has one verdict.
pub fn verdicts_are_one()
    ensures { VerdictsAreOne }
{}

/// Where all conditions hold over a plan, that plan is admissible, costs the total, and no admissible plan of
/// all years costs less; where they hold over an infeasible year, there is no admissible plan up to it, and
/// none of all years. Whoever made the certificate.
pub fn yes_means_true()
    ensures { YesMeansTrue }
{}

/// What solves a table meets all conditions: entries by the costs-to-come, and the chosen plan with its total,
/// or the infeasible year.
pub fn solutions_are_certified()
    ensures { SolutionsAreCertified }
{}

/// A list of lines says one certificate or has one first fault, and never both.
pub fn readings_are_one()
    ensures { ReadingsAreOne }
{}

/// Two certificates that say what a list of lines says have the same verdict on a table, though they may hold the
/// names of a year in different orders.
pub fn said_verdicts_are_one()
    ensures { SaidVerdictsAreOne }
{}
