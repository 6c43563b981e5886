//! What the program promises, in laws over all that is due of the words.

ghost use Rattle.ttw_program.specs.Headline.{Headline};
ghost use Rattle.ttw_program.specs.OneAnswer.{OneAnswer};

/// Of each mode file that is accepted `plan` writes the fewest rounds of every mode, or that there are
/// none, with a certificate that `check` accepts, unless a search exceeds the budget. In every list of
/// events that a script spells `replay` lets at most one node send in a slot, and only the message
/// placed by a beacon that it heard in that round.
///
/// It speaks of all that is due of the words, which is what `run` writes.
pub fn headline()
    ensures { Headline }
{}

/// Where the files are told, one answer is due of the commands that read a plan, `check`, `tables` and
/// `replay`, and of words that are no command.
pub fn one_answer()
    ensures { OneAnswer }
{}
