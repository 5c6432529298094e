//! What becomes of a task that was accepted.
ghost use Rattle.executor_laws.specs.Turns.{NoTaskIsLost, TurnsCome};

/// A task that was accepted, and neither cancelled nor ended, is never lost: it stands in line, or a run of it is under way,
/// or its one run was finished with a value, or a run of it failed.
pub fn no_task_is_lost()
    ensures { NoTaskIsLost }
{}

/// The turn of an enabled task comes: where n tasks stand before it, or are put before it later on, it is started by the
/// start n + 1 that is not refused at the latest, unless it is cancelled, swept or stopped first.
pub fn turns_come()
    ensures { TurnsCome }
{}
