ghost use Rattle.std.specs.Prelude.{◌≡◌, ◌≢◌, ℕ, ◌+◌, ◌^◌, ◌<◌, ◌≤◌, ◌⊎◌, Some, None, IfSome, IsTrue, slice_get, length, drop, option_map};
ghost use Rattle.sched_time.specs.Times.{longest};
ghost use Rattle.queue_code.specs.Calls.{IsOrderlyCall, most_calls_of_code};
ghost use Rattle.queue_code.specs.Codes.{calls_of, call_by};
ghost use Rattle.queue_code.specs.Cursors.{IsCursorOf, IsCursorAt, IsOver, calls_left, steps_of};
ghost use Rattle.queue_code.specs.own.Cursors.{EndsNoLoop, IsPlain};

use crate::call::CodeCall;
use crate::code::Code;
use crate::instr::Instr;
use std::alloc::Allocator;

/// A place in a code, from which its calls are fetched one after the other.
///
/// It walks through loops with five registers and holds no list of calls. Each call takes the code that the
/// cursor was made for.
#[derive(Clone, Copy, Debug)]
pub struct Cursor {
    /// The index of the next instruction.
    index: usize,
    /// What is added to offsets, in nanoseconds.
    base: u64,
    /// The number of the iteration, from 0.
    iteration: u32,
    /// How many tasks were made.
    tasks: u32,
    /// How many of them were made before the iteration.
    start: u32,
    /// How many instructions were executed.
    steps: u64,
}

impl Cursor {
    /// A cursor before the first call of a code.
    pub fn new<A: Allocator>(code: &Code<A>) -> Cursor
        ensures cursor { IsCursorOf code.now result }
        ensures left { calls_left code.now result ≡ calls_of code.now }
        ensures steps { steps_of result ≡ 0 }
    {
        let _instrs = code.instrs();
        Cursor {
            index: 0,
            base: 0,
            iteration: 0,
            tasks: 0,
            start: 0,
            steps: 0,
        }
    }

    /// How many instructions were executed by fetches.
    pub fn steps(&self) -> u64
        ensures { result ≡ steps_of self.now }
    {
        self.steps
    }

    /// The moment of the next call, in nanoseconds, and none after the last call.
    pub fn next_moment<A: Allocator>(&self, code: &Code<A>) -> Option<u64>
        requires { IsCursorOf code.now self.now }
        ensures { result ≡ option_map (λ p. p.0) (slice_get (calls_left code.now self.now) 0) }
    {
        let mut ahead = *self;
        match ahead.fetch(code) {
            Some((moment, _)) => Some(moment),
            None => None,
        }
    }

    /// The next call with its moment, in nanoseconds, and none after the last call.
    ///
    /// It executes 3 instructions at most, and one at least unless the cursor is past the end, where the first
    /// `None` leaves it.
    ///
    /// ```rust
    /// let instrs = vec![in alloc;
    ///     Instr::Loop(2, 10),
    ///     Instr::Illegal(100),
    ///     Instr::EndLoop,
    ///     Instr::Halt,
    /// ]?;
    /// let code = Code::check(alloc, instrs)?;
    /// let mut cursor = Cursor::new(&code);
    /// let first = CodeCall::Illegal { task: 0 };
    /// assert_eq!(rt; cursor.fetch(&code), Some((100, first)));
    /// let second = CodeCall::Illegal { task: 1 };
    /// assert_eq!(rt; cursor.fetch(&code), Some((110, second)));
    /// assert_eq!(rt; cursor.fetch(&code), None);
    /// ```
    pub fn fetch<A: Allocator>(&mut self, code: &Code<A>) -> Option<(u64, CodeCall)>
        requires { IsCursorOf code.now self.old }
        ensures cursor { IsCursorOf code.now self.new }

        // Each call comes once, in order, and then none.
        ensures call { result ≡ slice_get (calls_left code.now self.old) 0 }
        ensures left { calls_left code.now self.new ≡ drop 1 (calls_left code.now self.old) }

        // How many instructions are executed.
        ensures most { steps_of self.new ≤ steps_of self.old + 3 }
        ensures least { IsOver code.now self.old ⊎ (steps_of self.old + 1 ≤ steps_of self.new) }
        ensures over { result ≡ None → IsOver code.now self.new }
        ensures rests { IsOver code.now self.old → self.new ≡ self.old }
    {
        if self.is_at_call(code) {
            return self.make(code);
        }
        self.leave(code);
        self.enter(code);
        self.make(code)
    }

    /// Whether it stands at a call, and so neither at an end of a loop nor at that of the code.
    #[inline(always)]
    fn is_at_call<A: Allocator>(&self, code: &Code<A>) -> bool
        ensures { IsTrue result → IsPlain (slice_get code.now self.now.index) }
    {
        match code.get(self.index) {
            Some(instr) => instr.is_call(),
            None => false,
        }
    }

    /// At the end of a loop: goes back to its first instruction, or on after the last iteration.
    fn leave<A: Allocator>(&mut self, code: &Code<A>)
        requires cursor { IsCursorAt code.now self.old }
        requires steps { steps_of self.old < 2 ^ 32 }
        ensures cursor { IsCursorAt code.now self.new }
        ensures left { calls_left code.now self.new ≡ calls_left code.now self.old }
        ensures past { EndsNoLoop (slice_get code.now self.new.index) }
        ensures steps { (self.new ≡ self.old) ⊎ (steps_of self.new ≡ steps_of self.old + 1) }
        ensures rests { IsOver code.now self.old → self.new ≡ self.old }
    {
        let Some(Instr::EndLoop) = code.get(self.index) else {
            return;
        };
        let (place, times, every) = code.loop_around(self.index);
        self.steps += 1;
        self.iteration += 1;
        if self.iteration < times {
            self.base += every;
            self.start = self.tasks;
            self.index = place + 1;
        } else {
            self.base = 0;
            self.start = 0;
            self.index += 1;
        }
    }

    /// At the beginning of a loop: goes into its first iteration.
    fn enter<A: Allocator>(&mut self, code: &Code<A>)
        requires cursor { IsCursorAt code.now self.old }
        requires past { EndsNoLoop (slice_get code.now self.old.index) }
        requires steps { steps_of self.old < 2 ^ 32 + 1 }
        ensures cursor { IsCursorAt code.now self.new }
        ensures left { calls_left code.now self.new ≡ calls_left code.now self.old }
        ensures plain { IsPlain (slice_get code.now self.new.index) }
        ensures steps { (self.new ≡ self.old) ⊎ (steps_of self.new ≡ steps_of self.old + 1) }
        ensures rests { IsOver code.now self.old → self.new ≡ self.old }
    {
        let Some(Instr::Loop(..)) = code.get(self.index) else {
            return;
        };
        self.steps += 1;
        self.iteration = 0;
        self.base = 0;
        self.start = self.tasks;
        self.index += 1;
    }

    /// At a call or at the halt: executes it.
    #[inline(always)]
    fn make<A: Allocator>(&mut self, code: &Code<A>) -> Option<(u64, CodeCall)>
        requires cursor { IsCursorAt code.now self.old }
        requires plain { IsPlain (slice_get code.now self.old.index) }
        requires steps { steps_of self.old < 2 ^ 32 + 2 }
        ensures cursor { IsCursorAt code.now self.new }
        ensures call { result ≡ slice_get (calls_left code.now self.old) 0 }
        ensures left { calls_left code.now self.new ≡ drop 1 (calls_left code.now self.old) }
        ensures steps { IsOver code.now self.old ⊎ (steps_of self.new ≡ steps_of self.old + 1) }
        ensures over { result ≡ None → IsOver code.now self.new }
        ensures rests { IsOver code.now self.old → self.new ≡ self.old }
    {
        let Some(instr) = code.get(self.index) else {
            return None;
        };
        let call = self.call_of(&instr);
        self.steps += 1;
        self.index += 1;
        self.tasks += instr.tasks();
        call
    }

    /// The call of an instruction here, if it makes one.
    fn call_of(&self, instr: &Instr) -> Option<(u64, CodeCall)>
        requires { IfSome (call_by self.now.base self.now.start self.now.tasks instr.now)
            (λ p. (p.0 ≤ longest) × IsOrderlyCall self.now.tasks p.1
            × (self.now.tasks < most_calls_of_code)) }
        ensures { result ≡ call_by self.now.base self.now.start self.now.tasks instr.now }
    {
        let call = match instr {
            Instr::Submit(_, timing, delay) => CodeCall::Submit {
                task: self.tasks,
                timing: *timing,
                delay: *delay,
            },
            Instr::Illegal(_) => CodeCall::Illegal { task: self.tasks },
            Instr::CancelFixed(_, task) => CodeCall::Cancel { task: *task },
            Instr::CancelHere(_, nth) => CodeCall::Cancel {
                task: self.start + nth,
            },
            Instr::SetPolicy(_, which, value) => CodeCall::SetPolicy {
                which: *which,
                value: *value,
            },
            Instr::Shutdown(_) => CodeCall::Shutdown,
            Instr::ShutdownNow(_) => CodeCall::ShutdownNow,
            Instr::Ask(_) => CodeCall::Ask,
            Instr::Loop(..) | Instr::EndLoop | Instr::Halt => return None,
        };
        Some((self.base + instr.offset(), call))
    }
}
