//! Laws about what is told of lines: that it goes on line by line, and that it is one.
ghost use Rattle.wasp_session.specs.Descent.{CostsNeverRise};
ghost use Rattle.wasp_session.specs.Oneness.{
  JudgementsAreOne,
  KeyListsAreOne,
  TellingOfAFront,
  TellingsAreOne,
  TellingsGoOn,
};
ghost use Rattle.wasp_session.specs.Solving.{SolvedCasesAreOne};

use tunnel_configs::listings_are_one;

/// What is told of a line comes behind what was told of the lines before it.
pub fn telling_goes_on()
    ensures { TellingsGoOn }
{}

/// One thing is said of a certificate on a deck.
pub fn judgements_are_one()
    ensures { JudgementsAreOne }
{
    listings_are_one();
}

/// The lines of a script have one text, with one number of detailed years and one count of NOs.
pub fn tellings_are_one()
    ensures { TellingsAreOne }
{
    listings_are_one();
}

/// Lists of the keys that lines demand have the same keys, and as many.
pub fn key_lists_are_one()
    ensures { KeyListsAreOne }
{}

/// What is told of lines is what is told of the first of them, and then what is told of those behind.
pub fn telling_of_a_front()
    ensures { TellingOfAFront }
{}

/// A case of a deck has one solution and one set of keys.
pub fn solved_cases_are_one()
    ensures { SolvedCasesAreOne }
{
    listings_are_one();
}

/// The costs of the rounds of a case never rise, and a round behind one with a plan is not infeasible.
pub fn costs_never_rise()
    ensures { CostsNeverRise }
{}
