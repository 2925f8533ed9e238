//! Laws about what an engine counts.
ghost use Rattle.sim_engine.specs.Engine.{CountsAreSums};

/// As long as a count does not stand at its last value, it has risen by as many runs as were counted.
pub fn counts_are_sums()
    ensures { CountsAreSums }
{}
