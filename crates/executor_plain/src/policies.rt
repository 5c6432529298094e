ghost use Rattle.std.specs.Prelude.{◌≡◌};
ghost use Rattle.sched_time.specs.Policies.{default_policies, set_policy};
ghost use Rattle.executor_model.specs.Answers as answers;
ghost use Rattle.executor_model.specs.Histories as histories;

use executor_model::Answer;
use sched_time::{Policies, Timing, Which};

/// The policies before any is set.
pub(crate) fn default_policies() -> Policies
    ensures { result ≡ default_policies }
{
    Policies {
        continues: false,
        executes: true,
        removes: false,
    }
}

/// The policies after one is set.
pub(crate) fn set_policy(which: Which, value: bool, policies: Policies) -> Policies
    ensures { result ≡ set_policy which value policies }
{
    match which {
        Which::Continue => Policies {
            continues: value,
            ..policies
        },
        Which::Execute => Policies {
            executes: value,
            ..policies
        },
        Which::Remove => Policies {
            removes: value,
            ..policies
        },
    }
}

/// The policies after an answer.
pub(crate) fn policies_after(answer: Answer, before: Policies) -> Policies
    ensures { result ≡ histories.policies_after answer before }
{
    match answer {
        Answer::Policy { which, value } => set_policy(which, value, before),
        _ => before,
    }
}

/// Whether a policy is the one on removal at a cancel.
fn is_remove(which: Which) -> bool
    ensures { result ≡ answers.is_remove which }
{
    matches!(which, Which::Remove)
}

/// Whether setting a policy sweeps, where the executor is shut or not.
pub(crate) fn setting_sweeps(shut: bool, which: Which, value: bool) -> bool
    ensures { result ≡ answers.setting_sweeps shut which value }
{
    shut && !value && !is_remove(which)
}

/// Whether an answer says that there was a sweep, where the executor was shut before it or not.
pub(crate) fn is_sweep(shut: bool, answer: Answer) -> bool
    ensures { result ≡ histories.is_sweep shut answer }
{
    match answer {
        Answer::Shutdown => !shut,
        Answer::ShutdownNow => true,
        Answer::Policy { which, value } => setting_sweeps(shut, which, value),
        _ => false,
    }
}

/// Whether policies bar the runs of a waiting task of this timing, which is due at `due`, at the moment `now`.
fn bars_runs(policies: Policies, now: u64, timing: Timing, due: u64) -> bool
    ensures { result ≡ answers.bars_runs policies now timing due }
{
    match timing {
        Timing::Once => !policies.executes && now < due,
        Timing::Rate(_) | Timing::Fixed(_) => !policies.continues,
    }
}

/// Whether a sweep ends a waiting task of this timing, which is due at `due`, at the moment `now`, where the executor is
/// stopped or not.
pub(crate) fn is_ended_by(
    stopped: bool,
    policies: Policies,
    now: u64,
    timing: Timing,
    due: u64,
) -> bool
    ensures { result ≡ answers.is_ended_by stopped policies now timing due }
{
    stopped || bars_runs(policies, now, timing, due)
}

/// Whether periodic tasks do not go on.
pub(crate) fn stops_periodic(shut: bool, stopped: bool, policies: Policies) -> bool
    ensures { result ≡ answers.stops_periodic shut stopped policies }
{
    stopped || (shut && !policies.continues)
}
