//! What is so of every trial deck.
ghost use Rattle.deck_maker.specs.Laws.{TrialsAreNarrow, TrialsHaveNoFault, TrialsHaveOneCase};

/// A trial deck of any seed, 1 to 30 years and 1 to 6 thermal candidates meets no row of the fault table.
pub fn trials_have_no_fault()
    ensures { TrialsHaveNoFault }
{}

/// The tunnel of each year of a trial deck has at most 64 configurations.
pub fn trials_are_narrow()
    ensures { TrialsAreNarrow }
{}

/// A trial deck has its years and one case, and each year has a tunnel of its own, with at most 64 configurations.
pub fn trials_have_one_case()
    ensures { TrialsHaveOneCase }
{}
