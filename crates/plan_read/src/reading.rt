//! Plans from their texts.

ghost use Rattle.std.specs.Prelude.{◌≡◌, ◌≢◌, ◌⊎◌, ℕ, ◌+◌, ◌*◌, ◌≤◌, ◌<◌, true, length, [], ◌∷◌, ◌++◌, IfOk, IfErr, MatchResult, Some};
ghost use Rattle.toml.specs.View.{table_view, items_view};
ghost use Rattle.plan_read.specs.own.Walk.{◌or_else◌, place_fault, top, call_fault, calls_fault, block_fault, blocks_fault, tree_fault};
ghost use Rattle.plan_read.specs.Keys.{are_tables};
ghost use Rattle.plan_read.specs.Plans.{PlanTree, most_blocks, most_block_calls, most_calls, tasks_after, tasks_after_calls, submissions_from, submissions_before, last_offset, end_of_block, end_of, made_by};
ghost use Rattle.plan_read.specs.Reads.{out_of_memory};
ghost use Rattle.plan_read.specs.own.Plain.{items_are_plain, members_are_plain};
ghost use Rattle.plan_read.specs.own.Reads.{Reads, Knows};
ghost use Rattle.plan_read.specs.Texts.{TextWrites, TextFails};
ghost use Rattle.plan_read.specs.own.Texts.{length_tests, toml_tests, tree_at, fault_of_text, plan_of_text};
ghost use Rattle.plan_read.specs.own.Values.{tables_in, next_call, calls_through, block_of, blocks_through, version_at, plan_of};

use crate::calls::read_call;
use crate::faults::{Place, PlanFault, PlanFaultKind, ReadError};
use crate::headers::{moment_in_last, read_head, read_top};
use crate::key_lists::KeyLists;
use crate::limits::LONGEST_TEXT;
use crate::plans::{Block, Call, Header, Op, Plan, Target};
use crate::sites::Site;
use crate::versions::Version;
use heap_allocator::HeapAllocator;
use std::alloc::{Allocator, Global};
use std::collections::BTreeMap;
use toml::{Table, Value};

/// The plan that a text writes, or the first fault of the text.
///
/// The page of this crate says what a plan text is, and in which order faults are looked for. A fault of
/// the kind [`PlanFaultKind::Memory`] may come in place of any other answer, and says nothing of the text;
/// it has block 0 and call 0.
///
/// ```rust
/// let fault = read_plan(alloc, b"version = 2\n[[block]]\ntimes = 7\n").err();
/// let fault = fault.ok_or("a plan")?;
/// let told = fault.to_string(alloc)?; // `every` is missing
/// assert_eq!(rt; told.as_str(), "Missing block 1 call 0");
/// ```
pub fn read_plan<A: HeapAllocator>(alloc: A, text: &[u8]) -> Result<Plan<A>, PlanFault>
    ensures plan { IfOk result (λ p. TextWrites text.now p) }
    ensures only { (plan : PlanTree) → TextWrites text.now plan
        → MatchResult result (λ p. p ≡ plan) (λ e. e ≡ out_of_memory) }
    ensures fault { IfErr result (λ e. TextFails text.now e ⊎ (e ≡ out_of_memory)) }
{
    match read_text(alloc, text) {
        Ok(plan) => Ok(plan),
        Err(ReadError::Fault(fault)) => Err(fault),
        Err(ReadError::Memory) => Err(PlanFault {
            kind: PlanFaultKind::Memory,
            block: 0,
            call: 0,
        }),
    }
}

/// The plan that a text writes, or its fault.
fn read_text<A: HeapAllocator>(alloc: A, text: &[u8]) -> Result<Plan<A>, ReadError>
    ensures { Reads (λ p. p) result (fault_of_text text.now) (plan_of_text text.now) }
{
    let tree = read_document(alloc.heap(), text)?;
    Ok(read_tree(alloc, &tree)?.plan)
}

/// The tree of a text, which is no longer than a plan's may be.
pub fn read_document(heap: Global, text: &[u8]) -> Result<Table, ReadError>
    ensures { Reads (λ t. table_view t) result
        (place_fault top (length_tests text.now) or_else place_fault top (toml_tests text.now))
        (tree_at text.now) }
{
    if text.len() > LONGEST_TEXT {
        return Err(Place::top().fault(PlanFaultKind::TooLong));
    }
    parse(heap, text)
}

/// The tree of a text.
fn parse(heap: Global, text: &[u8]) -> Result<Table, ReadError>
    ensures { Reads (λ t. table_view t) result (place_fault top (toml_tests text.now))
        (tree_at text.now) }
{
    match toml::table_from_slice(heap, text) {
        Ok(table) => Ok(table),
        Err(error) => {
            if error.is_memory() {
                return Err(ReadError::Memory);
            }
            Err(Place::top().fault(PlanFaultKind::Toml))
        }
    }
}

/// A plan, with the version of its text.
#[derive(Drop)]
pub struct Written<A: Allocator> {
    pub version: Version,
    pub plan: Plan<A>,
}

/// The plan that a tree writes, with its version, or the fault of the tree.
pub fn read_tree<A: Allocator + Copy>(alloc: A, table: &Table) -> Result<Written<A>, ReadError>
    ensures plan { Reads (λ w. w.plan) result (tree_fault (table_view table.now))
        (plan_of (table_view table.now)) }
    ensures version { IfOk result (λ w. w.version ≡ version_at (table_view table.now)) }
    ensures plain { IfOk result (λ w. members_are_plain 4 (table_view table.now) ≡ true) }
{
    let top = read_top(alloc, table)?;
    let blocks = read_blocks(alloc, &top.lists, top.tables)?;
    Ok(Written {
        version: top.lists.version,
        plan: Plan::new(blocks),
    })
}

/// The blocks that the tables of a plan write.
#[tactic(auto, using(crate::proofs::Accepted::end_from_one_more, crate::proofs::Accepted::made_from_one_more))]
fn read_blocks<A: Allocator + Copy>(
    alloc: A,
    lists: &KeyLists<A>,
    tables: &[Value],
) -> Result<Vec<Block<A>, A>, ReadError>
    requires tables { are_tables (items_view tables.now) ≡ true }
    requires few { length tables.now ≤ most_blocks }
    ensures plain { IfOk result (λ v. items_are_plain 3 (items_view tables.now) ≡ true) }
    ensures blocks { Reads (λ v. v.items) result
        (blocks_fault lists.now.version [] (tables_in (items_view tables.now)))
        (blocks_through lists.now.version [] (tables_in (items_view tables.now))) }
{
    let mut blocks = Vec::with_capacity(alloc, tables.len())?;
    let mut names = BTreeMap::new(alloc);
    let mut end = 0;
    let mut made = 0;
    for value in tables {
        let Some(table) = value.as_table() else {
            unreachable!()
        };
        let earlier = blocks.as_slice();
        let block = read_block(alloc, lists, earlier, end, made, &mut names, table)?;
        end = end_of_block(end, &block);
        made += u64::from(block.times()) * block.calls().len() as u64;
        blocks.push(block)?;
    }
    Ok(blocks)
}

/// The block that the next table of a plan writes, where the last call before it is at the moment `end`
/// and `made` calls are made before it.
fn read_block<'a, A: Allocator + Copy>(
    alloc: A,
    lists: &KeyLists<A>,
    earlier: &[Block<A>],
    end: u128,
    made: u64,
    names: &mut BTreeMap<&'a str, Site, A>,
    table: &'a Table,
) -> Result<Block<A>, ReadError>
    requires blocks { length earlier.now < most_blocks }
    requires end { end ≡ end_of earlier.now }
    requires made { made ≡ made_by earlier.now }
    requires few { made ≤ most_calls }
    requires names { Knows names.old (submissions_from 0 earlier.now) }
    ensures block { Reads (λ b. b) result
        (block_fault lists.now.version earlier.now (table_view table.now))
        (block_of lists.now.version earlier.now (table_view table.now)) }
    ensures names { IfOk result
        (λ b. Knows names.new (submissions_from 0 (earlier.now ++ b ∷ []))) }
    ensures plain { IfOk result (λ b. members_are_plain 2 (table_view table.now) ≡ true) }
    ensures times { IfOk result (λ b. 1 ≤ b.header.times) }
    ensures few { IfOk result (λ b. made + b.header.times * length b.calls ≤ most_calls) }
{
    let place = Place {
        block: earlier.len() as u32 + 1,
        call: 0,
    };
    let head = read_head(place, lists, end, made, table)?;
    let calls = read_calls(alloc, lists, earlier, head.header, head.tables, names)?;
    Ok(Block::new(head.header, calls))
}

/// The moment of the last call of a block, and `end` where it has none.
fn end_of_block<A: Allocator>(end: u128, block: &Block<A>) -> u128
    requires { 1 ≤ block.now.header.times }
    ensures { result ≡ end_of_block end block.now.header block.now.calls }
{
    match block.calls() {
        [] => end,
        calls => moment_in_last(block.header(), last_offset(calls)),
    }
}

/// The calls that the tables of a block write.
fn read_calls<'a, A: Allocator + Copy>(
    alloc: A,
    lists: &KeyLists<A>,
    earlier: &[Block<A>],
    header: Header,
    tables: &'a [Value],
    names: &mut BTreeMap<&'a str, Site, A>,
) -> Result<Vec<Call, A>, ReadError>
    requires times { 1 ≤ header.times }
    requires blocks { length earlier.now < most_blocks }
    requires tables { are_tables (items_view tables.now) ≡ true }
    requires few { length tables.now ≤ most_block_calls }
    requires names { Knows names.old (submissions_from 0 earlier.now) }
    ensures calls { Reads (λ v. v.items) result
        (calls_fault lists.now.version earlier.now header [] (tables_in (items_view tables.now)))
        (calls_through lists.now.version earlier.now header []
        (tables_in (items_view tables.now))) }
    ensures names { IfOk result
        (λ v. Knows names.new (submissions_before earlier.now header v.items)) }
    ensures count { IfOk result (λ v. length v.items ≡ length tables.now) }
    ensures plain { IfOk result (λ v. items_are_plain 1 (items_view tables.now) ≡ true) }
{
    let mut calls = Vec::with_capacity(alloc, tables.len())?;
    let mut sub = 0;
    for value in tables {
        let Some(table) = value.as_table() else {
            unreachable!()
        };
        let call = read_next(lists, earlier, header, calls.as_slice(), sub, names, table)?;
        if call.op.is_submission() {
            sub += 1;
        }
        calls.push(call)?;
    }
    Ok(calls)
}

/// The call that the next table of a block writes, after the calls before it, `sub` of which are
/// submissions.
fn read_next<'a, A: Allocator + Copy>(
    lists: &KeyLists<A>,
    earlier: &[Block<A>],
    header: Header,
    before: &[Call],
    sub: usize,
    names: &mut BTreeMap<&'a str, Site, A>,
    table: &'a Table,
) -> Result<Call, ReadError>
    requires times { 1 ≤ header.times }
    requires blocks { length earlier.now < most_blocks }
    requires few { length before.now < most_block_calls }
    requires sub { sub ≡ tasks_after_calls 0 before.now }
    requires names { Knows names.old (submissions_before earlier.now header before.now) }
    ensures call { Reads (λ c. c) result
        (call_fault lists.now.version earlier.now header before.now (table_view table.now))
        (next_call lists.now.version earlier.now header before.now (table_view table.now)) }
    ensures names { IfOk result
        (λ c. Knows names.new (submissions_before earlier.now header (before.now ++ c ∷ []))) }
    ensures plain { IfOk result (λ c. members_are_plain 0 (table_view table.now) ≡ true) }
{
    let block = earlier.len();
    let place = Place {
        block: block as u32 + 1,
        call: before.len() as u32 + 1,
    };
    let site = Site {
        target: Target { block, sub },
        repeated: header.times > 1,
    };
    let last = last_offset(before);
    read_call(place, lists, site, names, header, last, table)
}

/// The offset of the last call, 0 where there is none.
fn last_offset(calls: &[Call]) -> u64
    ensures { result ≡ last_offset calls.now }
{
    match calls {
        [] => 0,
        [.., last] => last.at,
    }
}
