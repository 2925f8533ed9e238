//! Laws of the clip level.
ghost use Rattle.hydro_shave.specs.Hydro.{ClipLevelsAreLeast, ClipLevelsAreOne};

/// The clip level as a number is the least level from which the peak block takes no more than its energy.
pub fn clip_levels_are_least()
    ensures { ClipLevelsAreLeast }
{}

/// A curve has one such level.
pub fn clip_levels_are_one()
    ensures { ClipLevelsAreOne }
{}
