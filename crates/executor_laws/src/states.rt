//! What holds of the states that a history leads to, and of the words of its tasks.
ghost use Rattle.executor_laws.specs.TaskWords.{WordsTellTheHistory, RanksDoNotFall, CancelledWordsStay, ErrorsChangeNothing};
ghost use Rattle.executor_laws.specs.NeedWrites.{NeedsMoveWords};

/// The word of each task says what the history shows: it is vacant exactly when the task was not
/// accepted, done exactly when it is done, failed exactly when it has failed, cancelled exactly when
/// it was cancelled or ended, and its run follows the starts. One that is not cancelled is new exactly
/// when the task waits, and running exactly when a run of it is under way.
pub fn words_tell_the_history()
    ensures { WordsTellTheHistory }
{}

/// No answer lowers the rank of a task's word.
pub fn ranks_do_not_fall()
    ensures { RanksDoNotFall }
{}

/// A cancelled word stands still.
pub fn cancelled_words_stay()
    ensures { CancelledWordsStay }
{}

/// A happening that is answered by an error leaves the state as it is.
pub fn errors_change_nothing()
    ensures { ErrorsChangeNothing }
{}

/// A step makes the writes of words that its need names, and no other. Each is in the table of writes, and of a task of
/// the calls whose word is not cancelled; a cancel's task waits or is run. A sweep cancels the tasks that the step ends.
pub fn needs_move_words()
    ensures { NeedsMoveWords }
{}
