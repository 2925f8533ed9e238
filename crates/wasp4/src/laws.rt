//! Laws about the text of a script.
ghost use Rattle.wasp4.specs.Oneness.{TextsAreOne, TextsGoOn, WorkersWriteOneText};
ghost use Rattle.wasp4.specs.Trial.{TrialsAreOne};

use wasp_session::{key_lists_are_one, solved_cases_are_one, telling_of_a_front, tellings_are_one};

/// Two answers to a script, whatever engines gave them, have the same text, the same count of NOs and the same keys.
pub fn texts_are_one()
    ensures { TextsAreOne }
{
    tellings_are_one();
    key_lists_are_one();
}

/// What stands where memory is wanting or the sink fails is a front of the text of the script, and of two such
/// fronts one begins with the other.
pub fn texts_go_on()
    ensures { TextsGoOn }
{
    tellings_are_one();
    telling_of_a_front();
    key_lists_are_one();
}

/// `plan --workers N` and `plan` write the same bytes and end the same, as any two runs of a command do over the same
/// bytes.
pub fn workers_write_one_text()
    ensures { WorkersWriteOneText }
{
    tellings_are_one();
    key_lists_are_one();
}

/// The text of a trial of three numbers is one, whatever engine planned it.
pub fn trials_are_one()
    ensures { TrialsAreOne }
{
    solved_cases_are_one();
}
