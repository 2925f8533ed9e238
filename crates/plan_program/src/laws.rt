//! Laws of plans.
ghost use Rattle.plan_program.specs.Chosen.{SolutionsAreOne};

/// A table has one solution: the same costs-to-come, and the same chosen plan with its cost or the same
/// infeasible year.
pub fn solutions_are_one()
    ensures { SolutionsAreOne }
{}
