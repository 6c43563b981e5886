//! Laws of plan documents.

ghost use Rattle.proof_tree.specs.DocumentLaws.{AcceptedAreBest, ListsStand, OneAnswers, OwnDocumentsHaveRoom, OwnPartsMakeDocuments, OwnTreesHaveRoom, RightPartsAreAccepted, TextsAreRead, TreesAreValid, TreesStand};
ghost use Rattle.proof_tree.specs.Spelled.{LinesAreExact};

use sched_model::laws::own_trees_count_visits;

/// A line is read as a meaning exactly where it is the one spelling of that meaning.
pub fn lines_are_exact()
    ensures { LinesAreExact }
{}

/// A document is accepted with one list of plans, or refused with one refusal, and not both.
pub fn one_answers()
    ensures { OneAnswers }
{}

/// Of an accepted document each schedule has the fewest rounds, and a mode without one has no right
/// schedule.
pub fn accepted_are_best()
    ensures { AcceptedAreBest }
{}

/// The text of lines is read back, line by line, where it is within the limits.
pub fn texts_are_read()
    ensures { TextsAreRead }
{}

/// The lines of a valid tree stand for it.
pub fn trees_stand()
    ensures { TreesStand }
{}

/// Lines stand for a tree exactly where some nodes and numbers are a valid tree whose lines they are.
pub fn trees_are_valid()
    ensures { TreesAreValid }
{}

/// The lines of valid trees, each behind the line with its number of rounds, stand for them.
pub fn lists_stand()
    ensures { ListsStand }
{}

/// The document of right parts of all modes is accepted with their schedules, where it is within
/// the limits on lines and bytes.
pub fn right_parts_are_accepted()
    ensures { RightPartsAreAccepted }
{}

/// The parts that the search makes are right, and each of their lines is within the limits; so
/// their document is one of the search and accepted, where it has at most 4,294,967,296 bytes.
pub fn own_parts_make_documents()
    ensures { OwnPartsMakeDocuments }
{}

/// Each line of a tree that the search makes is within the limits.
pub fn own_trees_have_room()
    ensures { OwnTreesHaveRoom }
{}

/// Parts that the search makes within the greatest budget have a document of the search, which is accepted.
pub fn own_documents_have_room()
    ensures { OwnDocumentsHaveRoom }
{
    own_trees_count_visits();
}
