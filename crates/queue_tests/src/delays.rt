//! Tests of the queue of tasks.
ghost use Rattle.std.specs.Prelude.{◌≡◌, length};

use crate::by_hand::{NO_ROOM, TIES, TOUCHES};
use crate::calls::Call::{
    Contains, DueOf, Insert, IsEmpty, Len, Peek, Poll, Remove, Reserve, Slots, Touched,
};
use crate::calls::Told::{Count, Moment, No, Yes};
use crate::calls::{Answers, Call, Row, Told, follow};
use crate::drawn::{Draws, compare};
use crate::full::{MANY, Order, fill, remove_all};
use crate::plain::PlainQueue;
use delay_queue::{DelayQueue, Entry, QueueError};
use linked_list_allocator::LocalHeap;
use std::alloc::{AllocError, Global};
use std::process::Abort;
use std::test::Fail;

/// A queue for so many tasks.
#[derive(Drop)]
struct Tasks {
    queue: DelayQueue<Global>,
    tasks: u32,
    ghost room: { length queue.entries ≡ tasks },
}

impl Tasks {
    fn new(alloc: Global, tasks: u32) -> Result<Tasks, QueueError> {
        let queue = DelayQueue::new(alloc, tasks)?;
        Ok(Tasks { queue, tasks })
    }

    /// The queue alone.
    fn into_queue(self) -> DelayQueue<Global> {
        self.queue
    }
}

/// What is told of an entry.
fn told(entry: Option<Entry>) -> Told {
    match entry {
        Some(entry) => Told::Entry(entry.due, 0, entry.task),
        None => No,
    }
}

impl Answers for Tasks {
    fn answer(&mut self, call: &Call) -> Told {
        match *call {
            Insert(due, _, task) => {
                if task >= self.tasks || self.queue.contains(task) {
                    return No;
                }
                self.queue.insert(Entry { due, task });
                Yes
            }
            Poll(now) => told(self.queue.poll(now)),
            Remove(task) => Told::truth(self.queue.remove(task)),
            // The room stays as it is.
            Reserve(tasks) => Told::truth(tasks <= self.tasks),
            Peek => told(self.queue.peek()),
            DueOf(task) => Told::moment(self.queue.due_of(task)),
            Contains(task) => Told::truth(self.queue.contains(task)),
            IsEmpty => Told::truth(self.queue.is_empty()),
            Len => Told::count(self.queue.len()),
            Slots => Count(u64::from(self.tasks)),
            Touched => Count(self.queue.touched()),
        }
    }
}

#[test]
fn the_page_is_run(rt: HostRuntime) -> Result<(), Fail> {
    let alloc = rt.alloc();
    // example: delay_queue
    // Room for the tasks 0, 1 and 2.
    let mut queue = DelayQueue::new(alloc, 3)?;
    queue.insert(Entry { due: 5, task: 0 });
    queue.insert(Entry { due: 3, task: 2 });

    assert_eq!(rt; queue.peek(), Some(Entry { due: 3, task: 2 }));
    assert_eq!(rt; queue.poll(3), Some(Entry { due: 3, task: 2 }));
    assert_eq!(rt; queue.due_of(0), Some(5));
    assert!(rt; queue.remove(0));
    assert!(rt; queue.is_empty());
    // end of example
    Ok(())
}

const LEAST: &[Row] = &[
    (Insert(5, 0, 0), Yes),
    (Insert(5, 0, 1), Yes),
    (Insert(3, 0, 2), Yes),
    (Len, Count(3)),
    (DueOf(2), Moment(3)),
    (Peek, Told::Entry(3, 0, 2)),
    (Poll(2), No),
    (Poll(3), Told::Entry(3, 0, 2)),
    (Poll(5), Told::Entry(5, 0, 0)),
    (Remove(1), Yes),
    (Remove(1), No),
    (Len, Count(0)),
];

#[test]
fn the_least_comes_out_once_it_is_due(rt: HostRuntime) -> Result<(), Fail> {
    let mut queue = Tasks::new(rt.alloc(), 3)?;
    follow(&rt, &mut queue, LEAST);
    Ok(())
}

#[test]
fn entries_of_one_moment_are_polled(rt: HostRuntime) -> Result<(), Fail> {
    let alloc = rt.alloc();
    // example: delay_queue::DelayQueue::poll
    let mut queue = DelayQueue::new(alloc, 2)?;
    queue.insert(Entry { due: 5, task: 1 });
    queue.insert(Entry { due: 5, task: 0 });
    assert_eq!(rt; queue.poll(4), None); // nothing is due yet
    assert_eq!(rt; queue.poll(5), Some(Entry { due: 5, task: 0 }));
    assert_eq!(rt; queue.poll(9), Some(Entry { due: 5, task: 1 }));
    // end of example
    Ok(())
}

#[test]
fn a_queue_for_no_task_is_empty(rt: HostRuntime) -> Result<(), Fail> {
    let mut queue = Tasks::new(rt.alloc(), 0)?;
    follow(&rt, &mut queue, NO_ROOM);
    Ok(())
}

const ONE_TASK: &[Row] = &[
    (Insert(7, 0, 0), Yes),
    (Peek, Told::Entry(7, 0, 0)),
    (Poll(6), No),
    (Poll(7), Told::Entry(7, 0, 0)),
    (Insert(7, 0, 0), Yes),
    (Contains(0), Yes),
    (Contains(1), No),
    (Remove(1), No),
    (Remove(0), Yes),
    (IsEmpty, Yes),
    (Touched, Count(0)),
];

#[test]
fn a_queue_for_one_task(rt: HostRuntime) -> Result<(), Fail> {
    let mut queue = Tasks::new(rt.alloc(), 1)?;
    follow(&rt, &mut queue, ONE_TASK);
    Ok(())
}

#[test]
fn ties_go_by_task_number(rt: HostRuntime) -> Result<(), Fail> {
    let mut queue = Tasks::new(rt.alloc(), 4)?;
    follow(&rt, &mut queue, TIES);
    Ok(())
}

/// A queue with an entry for each of its tasks.
fn filled(rt: &impl Abort, alloc: Global, order: Order) -> Result<Tasks, QueueError> {
    let mut queue = Tasks::new(alloc, MANY)?;
    fill(rt, &mut queue, order);
    Ok(queue)
}

/// Takes the entries of a full queue, and checks that each comes after the one before.
fn come_in_order(rt: &impl Abort, mut queue: DelayQueue<Global>) {
    let mut last = None;
    for _ in 0..MANY {
        let least = queue.peek();
        assert!(rt; last < least);
        assert!(rt; queue.poll(u64::MAX) == least);
        last = least;
    }
    assert!(rt; queue.is_empty());
}

#[test]
fn as_many_entries_as_tasks_come_out_in_order(rt: HostRuntime) -> Result<(), Fail> {
    for order in [Order::Rising, Order::Falling, Order::Mixed] {
        let queue = filled(&rt, rt.alloc(), order)?;
        come_in_order(&rt, queue.into_queue());
    }
    Ok(())
}

#[test]
fn as_many_entries_as_tasks_are_removed(rt: HostRuntime) -> Result<(), Fail> {
    for order in [Order::Rising, Order::Falling, Order::Mixed] {
        let mut queue = filled(&rt, rt.alloc(), order)?;
        remove_all(&rt, &mut queue, order);
    }
    Ok(())
}

/// How often a call may touch a queue with this number of entries.
fn most_touches(count: usize) -> u64 {
    4 * u64::from(usize::BITS - count.leading_zeros()) + 2
}

/// Makes a call of a queue and of a plain one, and checks what they answer, and that it touched few entries, as many of
/// each.
fn touches_few(
    rt: &impl Abort,
    queue: &mut Tasks,
    plain: &mut PlainQueue,
    call: &Call,
    answer: Told,
) {
    let most = most_touches(queue.queue.len());
    let before = queue.queue.touched();
    assert!(rt; queue.answer(call) == answer);
    assert!(rt; plain.answer(call) == answer);
    let after = queue.queue.touched();
    assert!(rt; before <= after && after - before <= most);
    assert!(rt; plain.answer(&Touched) == Count(after));
}

#[test]
fn no_call_touches_too_often(rt: HostRuntime) -> Result<(), Fail> {
    let mut queue = Tasks::new(rt.alloc(), 1024)?;
    let mut plain = PlainQueue::new(rt.alloc(), 1024);
    for task in 0..1024u32 {
        let call = Insert(u64::from(1023 - task), 0, task);
        touches_few(&rt, &mut queue, &mut plain, &call, Yes);
    }
    assert!(rt; most_touches(1023) == 42);
    // Each entry comes before all that are there, and so rises to the first place, by a comparison and a move for each place
    // above its own. There are none above the first place, 1 above each of the next 4, 2 above each of the next 16, 3 of 64,
    // 4 of 256, and 5 above each of the 683 that are left.
    assert!(rt; queue.queue.touched() == 2 * (4 + 2 * 16 + 3 * 64 + 4 * 256 + 5 * 683));
    for number in 0..1024u32 {
        let least = Told::Entry(u64::from(number), 0, 1023 - number);
        touches_few(&rt, &mut queue, &mut plain, &Poll(1023), least);
    }
    let before = queue.queue.touched();
    assert!(rt; queue.answer(&Poll(1023)) == No);
    assert!(rt; queue.queue.touched() == before);
    Ok(())
}

/// What is drawn: how many tasks and moments.
const DRAWN: &[(u32, u64)] = &[(1, 2), (5, 3), (100, 10), (1000, 1), (1000, 1_000_000)];

#[test]
fn a_plain_queue_answers_the_same(rt: HostRuntime) -> Result<(), Fail> {
    for (tasks, moments) in DRAWN {
        let draws = Draws {
            calls: 20_000,
            slots: *tasks,
            moments: *moments,
            ranks: 1,
        };
        let mut queue = Tasks::new(rt.alloc(), *tasks)?;
        compare(
            &rt,
            &mut queue,
            &mut PlainQueue::new(rt.alloc(), *tasks),
            &draws,
        );
    }
    Ok(())
}

#[test]
fn memory_for_each_count_of_tasks(rt: HostRuntime) -> Result<(), Fail> {
    for tasks in 0..=70 {
        assert!(rt; DelayQueue::new(rt.alloc(), tasks).is_ok());
    }
    for tasks in [65_537, 1_000_000] {
        assert!(rt; DelayQueue::new(rt.alloc(), tasks)?.len() == 0);
    }
    Ok(())
}

#[test]
fn single_calls_touch_by_hand(rt: HostRuntime) -> Result<(), Fail> {
    let mut queue = Tasks::new(rt.alloc(), 3)?;
    follow(&rt, &mut queue, TOUCHES);
    Ok(())
}

/// Whether a queue for so many tasks is refused in a heap of so many bytes, to which all comes back.
fn is_refused(rt: &impl Abort, alloc: Global, tasks: u32, size: usize) -> Result<bool, AllocError> {
    let heap = LocalHeap::new(alloc, size)?;
    let refused = DelayQueue::new(&heap, tasks).is_err();
    assert!(rt; heap.used() == 0, "{tasks} tasks, {size} bytes");
    Ok(refused)
}

#[test]
fn a_refused_queue_gives_its_memory_back(rt: HostRuntime) -> Result<(), Fail> {
    for tasks in [1, 2, 10] {
        let mut refused = true;
        for size in 0..1_024 {
            refused = refused && is_refused(&rt, rt.alloc(), tasks, size)?;
        }
        assert!(rt; !refused, "{tasks} tasks");
    }
    Ok(())
}

#[test]
fn the_error_as_text(rt: HostRuntime) -> Result<(), Fail> {
    let text = format!(in rt.alloc(); "{}", QueueError::Memory)?;
    assert!(rt; text.as_str() == "out of memory");
    Ok(())
}
