//! The numbers of workers with which a text conforms.

ghost use Rattle.std.specs.Prelude.{◌≤◌, ◌↔◌, IfOk, IsTrue, length};
ghost use Rattle.plan_compile.specs.PlanCalls.{calls_of_plan};
ghost use Rattle.trace_check.specs.Findings.{Breaks, Conforms};
ghost use Rattle.trace_check.specs.Standing.{most_bytes};
ghost use Rattle.executor_model.specs.Counts.{IsWorkerCount};
ghost use Rattle.trace_reasons.specs.Standing.{AreConforming};

use crate::scene::Scene;
use executor_model::MOST_WORKERS;
use std::alloc::{AllocError, Allocator};
use trace_check::{Finding, check};

impl<A: Allocator + Copy, B: Allocator> Scene<'_, '_, A, B> {
    /// The numbers of workers with which the text conforms, in ascending order. `Err` is a refused growth.
    pub fn conforming(&self) -> Result<Vec<u8, A>, AllocError>
        requires size { length self.now.text.now ≤ most_bytes }
        requires breaks { Breaks (calls_of_plan self.now.plan.now) self.now.workers
            self.now.text.now self.now.line }
        ensures { IfOk result
            (λ numbers. AreConforming (calls_of_plan self.now.plan.now) self.now.text.now
            numbers.items) }
    {
        let mut numbers = Vec::new(self.alloc);
        for workers in 1..=MOST_WORKERS {
            if self.conforms_with(workers)? {
                numbers.push(workers)?;
            }
        }
        Ok(numbers)
    }

    /// Whether the text conforms with this number of workers, 1 to 64. `Err` is a refused growth.
    fn conforms_with(&self, workers: u8) -> Result<bool, AllocError>
        requires size { length self.now.text.now ≤ most_bytes }
        requires count { IsWorkerCount workers }
        requires breaks { Breaks (calls_of_plan self.now.plan.now) self.now.workers
            self.now.text.now self.now.line }
        ensures { IfOk result
            (λ conforms. IsTrue conforms
            ↔ Conforms (calls_of_plan self.now.plan.now) workers self.now.text.now) }
    {
        if workers == self.workers {
            return Ok(false);
        }
        match check(self.alloc, self.plan, workers, self.text) {
            Ok(finding) => Ok(finding == Finding::Conforms),
            Err(_) => Err(AllocError),
        }
    }
}
