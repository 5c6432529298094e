//! A law of runs by a pool. The function does nothing: what it ensures is the law.
ghost use Rattle.pool_engine.specs.Laws.{PoolRunsConform};

/// What a run by a pool wrote conforms to the plan, as [`check`](trace_check::check) finds it: where it ended well, or with as many
/// events as the limit allows.
pub fn pool_runs_conform()
    ensures { PoolRunsConform }
{}
