//! What holds of the meaning of modules, each as the contract of a function that does nothing.

ghost use Rattle.px_meaning.specs.Apart.{LoopsLeaveTheirWorld, PlainLoops};
ghost use Rattle.px_meaning.specs.InTurn.{SectionsInTurn};
ghost use Rattle.px_meaning.specs.Laws.{
  LoopsAreTheRest,
  MeaningsAreUnique,
  MoreTurnsChangeNothing,
  UnstoppedJournalsAreWhole,
};

/// A module has one meaning for an input, turns, members, the journals of its loops and the bodies of these.
pub fn meanings_are_unique()
    ensures { MeaningsAreUnique }
{}

/// A module that comes to no parallel loop means along no journals exactly what it does on one world, and in the order of indices it does
/// that too.
pub fn loops_are_the_rest()
    ensures { LoopsAreTheRest }
{}

/// A module that comes to no parallel loop, and doesn't run out of its turns, means the same with more turns.
pub fn more_turns_change_nothing()
    ensures { MoreTurnsChangeNothing }
{}

/// In a lawful journal of a loop that nothing stopped all iterations ran, each once.
pub fn unstopped_journals_are_whole()
    ensures { UnstoppedJournalsAreWhole }
{}

/// Iterations that are given beforehand, so that none hands variables or turns to the next one, and none of which writes a cell that
/// another one reads or writes: one after another on one world each ends as it does alone on the opening words, and they leave the words
/// that their writes leave. A cell that one of them writes has the word that this one leaves alone, and other cells have their opening
/// words.
pub fn plain_loops()
    ensures { PlainLoops }
{}

/// A parallel loop without lock sections, none of whose iterations writes a cell that another one reads or writes, leaves along each lawful
/// journal in which no iteration stopped the world that its iterations leave one after another, each from the state in which the loop was
/// entered; and so it does along any journal without sections in which all iterations ran.
pub fn loops_leave_their_world()
    ensures { LoopsLeaveTheirWorld }
{}

/// One iteration alone, whose lock sections begin with the stores that they find where nobody else has the lock between them, ends as it
/// does on one world, and leaves its writes and the store of its last section. The iteration comes to no loop, and releases no buffer.
pub fn sections_in_turn()
    ensures { SectionsInTurn }
{}
