//! Calls of the libraries. All tests make them through here: what they ensure is then looked at once.
use heap_allocator::HeapAllocator;
use plan_compile::CompileFault;
use plan_read::{Plan, PlanFault};
use queue_code::{Code, CodeFault};
use std::alloc::{Allocator, Global};

/// That of `plan_read`.
pub fn read_plan<A: HeapAllocator>(alloc: A, text: &[u8]) -> Result<Plan<A>, PlanFault> {
    plan_read::read_plan(alloc, text)
}

/// That of `plan_compile`.
pub fn compile<A: Allocator + Copy>(
    alloc: A,
    plan: &Plan<Global>,
) -> Result<Code<A>, CompileFault> {
    plan_compile::compile(alloc, plan)
}

/// That of `queue_code`.
pub fn listing<A: Allocator>(alloc: A, code: &Code<A>) -> Result<String<A>, CodeFault> {
    queue_code::listing(alloc, code)
}
