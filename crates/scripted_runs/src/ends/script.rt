//! What an end does at its calls, and how far it is.
ghost use Rattle.std.specs.Prelude.{◌≡◌, ◌≤◌, IfOk};

use std::io;
use std::io::ErrorKind;

/// So many interrupts in a row are a fault to those who call an end.
const MOST_INTERRUPTS: u32 = 1_000;

/// What an end does at the call at which it is in trouble.
#[derive(Clone, Copy)]
pub enum Trouble {
    Fails(ErrorKind),
    TakesNothing,
}

/// What an end does at its calls.
#[derive(Clone, Copy)]
pub struct Script {
    /// How many bytes a call gives or takes at most.
    pub most: usize,
    /// How many calls in a row are interrupted before each other one.
    pub interrupts: u32,
    /// Which of these others is in trouble, counted from 1; 0 is none.
    pub trouble_at: u32,
    pub trouble: Trouble,
}

impl Script {
    /// So many bytes a call, with no trouble.
    pub fn smooth(most: usize) -> Script
        ensures { (result.most ≡ most) × (result.interrupts ≡ 0) × (result.trouble_at ≡ 0) }
    {
        Script {
            most,
            interrupts: 0,
            trouble_at: 0,
            trouble: Trouble::TakesNothing,
        }
    }

    /// How often an end is called, up to its fault: the 1,000th interrupt in a row, or the trouble.
    pub fn calls(&self) -> u32 {
        if self.interrupts >= MOST_INTERRUPTS {
            return MOST_INTERRUPTS;
        }
        self.trouble_at
            .saturating_mul(self.interrupts.saturating_add(1))
    }
}

/// How far an end is in its script.
#[derive(Drop)]
pub struct Playing {
    script: Script,
    /// How often it was called.
    pub calls: u32,
    /// How many of these calls were interrupted, since the last other one.
    interrupted: u32,
    /// How many were not.
    done: u32,
}

impl Playing {
    /// Before the first call.
    pub fn new(script: Script) -> Playing {
        Playing {
            script,
            calls: 0,
            interrupted: 0,
            done: 0,
        }
    }

    /// How many of `len` bytes the next call gives or takes.
    pub fn call(&mut self, len: usize) -> io::Result<usize>
        ensures { IfOk result (λ n. n ≤ len) }
    {
        self.calls = self.calls.saturating_add(1);
        if self.interrupted < self.script.interrupts {
            self.interrupted += 1;
            return Err(io::Error::from(ErrorKind::Interrupted));
        }
        self.interrupted = 0;
        self.done = self.done.saturating_add(1);
        if self.done != self.script.trouble_at {
            return Ok(len.min(self.script.most));
        }
        match self.script.trouble {
            Trouble::Fails(kind) => Err(io::Error::from(kind)),
            Trouble::TakesNothing => Ok(0),
        }
    }
}
