//! A text that breaks.

use executor_model::Line;
use plan_read::Plan;
use std::alloc::Allocator;

/// A text that breaks, held against the traces of a plan.
#[derive(Drop)]
pub struct Scene<'p, 't, A: Allocator, B: Allocator> {
    pub alloc: A,
    pub plan: &'p Plan<B>,
    pub workers: u8,
    pub text: &'t [u8],
    /// The lines before the break.
    pub before: &'p [Line],
    /// The number of the line at which the text breaks, counted from 1.
    pub line: u64,
}
