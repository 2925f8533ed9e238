//! Laws of the equivalent load.
ghost use Rattle.convolution.specs.ExactLoad.{LoadsAreNearExact};

/// Convolving n units puts no cell of the equivalent load above the exact load, and none more than n parts of
/// `ONE` below it, since each unit rounds down once. Both are compared as whole numbers, M to the n times as large.
pub fn loads_are_near_exact()
    ensures { LoadsAreNearExact }
{}
