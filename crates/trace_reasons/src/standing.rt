//! Which lines could stand where a text breaks.

ghost use Rattle.std.specs.Prelude.{◌≤◌, ◌≢◌, All, AllPairs, IfOk, IsFalse, IsTrue, length};
ghost use Rattle.plan_compile.specs.PlanCalls.{calls_of_plan};
ghost use Rattle.trace_reasons.specs.Standing.{CouldStand};

use crate::places::lines_before;
use crate::scene::Scene;
use executor_model::Line;
use std::alloc::{AllocError, Allocator};
use trace_check::{Finding, MOST_BYTES, check};
use trace_text::write_line;

/// How many lines are told at most.
const MOST_LINES: usize = 3;

impl<A: Allocator + Copy, B: Allocator> Scene<'_, '_, A, B> {
    /// Those of some lines that could stand where the text breaks, each once, the first three. `Err` is a refused growth.
    pub fn standing(&self, lines: &[Line]) -> Result<Vec<Line, A>, AllocError>
        ensures stand { IfOk result
            (λ those. All
            (CouldStand (calls_of_plan self.now.plan.now) self.now.workers self.now.text.now
            self.now.line) those.items) }
        ensures few { IfOk result (λ those. length those.items ≤ 3) }
        ensures differ { IfOk result (λ those. AllPairs (λ line other. line ≢ other) those.items) }
    {
        let mut those = Vec::new(self.alloc);
        for line in lines {
            if those.len() < MOST_LINES && !is_among(line, &those) && self.could_stand(line)? {
                those.push(*line)?;
            }
        }
        Ok(those)
    }

    /// Whether a line could stand where the text breaks. `Err` is a refused growth.
    fn could_stand(&self, line: &Line) -> Result<bool, AllocError>
        ensures { IfOk result
            (λ could. IsTrue could
            → CouldStand (calls_of_plan self.now.plan.now) self.now.workers self.now.text.now
            self.now.line line.now) }
    {
        let mut text = Vec::new(self.alloc);
        text.extend_from_slice(lines_before(self.text, self.line))?;
        write_line(&mut text, line).map_err(|_| AllocError)?;
        if text.len() > MOST_BYTES {
            return Ok(false);
        }
        match check(self.alloc, self.plan, self.workers, &text) {
            Ok(Finding::Conforms) => Ok(true),
            Ok(Finding::Breaks(line)) => Ok(line > self.line),
            Err(_) => Err(AllocError),
        }
    }
}

/// Whether an item is one of some.
fn is_among<T: Eq>(item: &T, items: &[T]) -> bool
    ensures { IsFalse result → All (λ other. other ≢ item.now) items.now }
{
    items.contains(item)
}
