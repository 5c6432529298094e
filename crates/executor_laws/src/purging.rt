//! What holds of purges.
ghost use Rattle.executor_laws.specs.Purges.{PurgesTakeTheKept, PurgesChangeAsksAlone};

/// A purge takes each kept task out of the queue, and does nothing else.
pub fn purges_take_the_kept()
    ensures { PurgesTakeTheKept }
{}

/// Whatever happens after a purge is answered as it would be without it, but for what an ask says of the queue, and
/// whether the executor is terminated.
pub fn purges_change_asks_alone()
    ensures { PurgesChangeAsksAlone }
{}
