//! A law about hourly loads.
ghost use Rattle.hourly_load.specs.Hours.{HourliesAreOne};

/// Loads and a number of points have one peak, one list of points, one sum and one error.
pub fn hourlies_are_one()
    ensures { HourliesAreOne }
{}
