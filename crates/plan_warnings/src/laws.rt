//! Laws on the calls of which warnings tell, in functions that do nothing.

ghost use Rattle.plan_warnings.specs.MadePlaces.{IllegalPlacesAreRefused, PlacesRejectedAgainAreRefused, PlacesWithNothingToCancelHaveNoEffect, RejectedPlacesAreRefused};
ghost use Rattle.plan_warnings.specs.Refusals.{CallsBehindShutdownsAreRejected, CancelsOfRefusedTasksHaveNoEffect, IllegalCallsAreRefused};

use plan_read::plans_are_ordered;

/// A submission that is illegal is refused as such, whatever comes.
pub fn illegal_calls_are_refused()
    ensures { IllegalCallsAreRefused }
{}

/// A submission before which a shutdown stands among the calls is refused as rejected, whatever comes.
pub fn calls_behind_shutdowns_are_rejected()
    ensures { CallsBehindShutdownsAreRejected }
{}

/// A cancel of a task whose submission is refused has no effect.
pub fn cancels_of_refused_tasks_have_no_effect()
    ensures { CancelsOfRefusedTasksHaveNoEffect }
{}

/// Each call of which [`Illegal`](crate::WarningKind::Illegal) is told is refused as illegal, in each history of the plan's calls.
pub fn illegal_places_are_refused()
    ensures { IllegalPlacesAreRefused }
{}

/// Each call of which [`Rejected`](crate::WarningKind::Rejected) is told is refused as rejected, in each history of the plan's
/// calls.
pub fn rejected_places_are_refused()
    ensures { RejectedPlacesAreRefused }
{
    plans_are_ordered();
}

/// Each call of which [`RejectedAgain`](crate::WarningKind::RejectedAgain) is told is refused as rejected from the second iteration
/// of its block on, in each history of the plan's calls.
pub fn places_rejected_again_are_refused()
    ensures { PlacesRejectedAgainAreRefused }
{}

/// Each cancel of which [`NothingToCancel`](crate::WarningKind::NothingToCancel) is told has no effect, in each history of the
/// plan's calls.
pub fn places_with_nothing_to_cancel_have_no_effect()
    ensures { PlacesWithNothingToCancelHaveNoEffect }
{
    plans_are_ordered();
}
