ghost use Rattle.std.specs.Prelude.{◌≡◌, ◌+◌, ◌<◌, ◌≢◌, ◌^◌, ◌==◌, false};
ghost use Rattle.std.proofs.Common.{rules};
ghost use Rattle.std.specs.Cmp.Rules.{comparing};
ghost use Rattle.std.specs.Ordering.{on};
ghost use Rattle.task_word.specs.declared.phases.Phase.TheVariants.{Vacant, New, Running};
ghost use Rattle.task_word.specs.Words.{vacant_word, new_in, value, rank, is_cancelled, submitted, started, rearmed, ended_well, ended_badly, marked, IsWord};
ghost use Rattle.task_word.specs.Numbers.{word_of_value};
ghost use Rattle.task_word.specs.own.Numbers.{IsNumberOfWord};

use crate::phases::Phase;
use std::marker::Model;

// The word's bit of a cancel.
pub(crate) const BIT: u64 = 1 << 63;

/// What one task's word says: its phase, the number of its run, and whether the bit of a cancel is set.
///
/// A run is numbered from 0 and is at most 4,294,967,295. A vacant word has run 0.
/// The word of a task that a table keeps is [`Word::value`], and a `Word` keeps this number alone.
#[derive(Clone, Copy, Debug)]
pub struct Word {
    number: u64,
}

impl Model for Word {
    ghost use Rattle.std.proofs.Common.{ap};
    ghost use Rattle.task_word.specs.Words.{Parts, value};
    ghost use Rattle.task_word.specs.Numbers.{word_of_value};
    ghost use Rattle.task_word.specs.own.Numbers.{IsNumberOfWord};

    ghost Value = { Parts };

    ghost view = { λ w. word_of_value w.number };

    ghost invariant = { λ w. IsNumberOfWord w.number };

    ghost inverse = { λ p. record { number = value p } };

    ghost inverse_ok = { λ w h. ap (λ n. record { number = n }) h.same };
}

impl PartialEq for Word {
    ghost use Rattle.task_word.specs.Numbers.{told_apart};

    ghost eq = { on told_apart ◌==◌ };

    ghost laws = { Prim.search (comparing, rules) };

    #[inline(always)]
    fn eq(&self, other: &Word) -> bool {
        self.number == other.number
    }
}

impl Eq for Word {
    ghost laws = { Prim.search (comparing, rules) };
}

impl Word {
    /// The word of a task that was not submitted, without the bit.
    #[inline(always)]
    pub fn vacant() -> Word
        ensures { result ≡ vacant_word }
    {
        Word { number: 0 }
    }

    /// The word of a task that waits for the run of this number, without the bit.
    #[inline(always)]
    pub fn new_run(run: u32) -> Word
        ensures { result ≡ new_in run }
    {
        let number = 8 * u64::from(run) + 1;
        Word { number }
    }

    /// The phase, which the bit does not change.
    #[inline(always)]
    pub fn phase(self) -> Phase
        ensures { result ≡ self.phase }
    {
        let number = self.number % 8;
        if number == 0 {
            Phase::Vacant
        } else if number == 1 {
            Phase::New
        } else if number == 2 {
            Phase::Running
        } else if number == 3 {
            Phase::Done
        } else {
            Phase::Failed
        }
    }

    /// The number of the run, from 0 to 4,294,967,295. It is 0 where the word is vacant.
    #[inline(always)]
    pub fn run(self) -> u32
        ensures value { result ≡ self.run }
        ensures vacant { self.phase ≡ Vacant → result ≡ 0 }
    {
        (self.number % BIT / 8) as u32
    }

    /// Whether the bit is set, be the word cancelled or not.
    #[inline(always)]
    pub fn is_marked(self) -> bool
        ensures { result ≡ self.marked }
    {
        self.number >= BIT
    }

    /// Whether the bit is set and the task waits or is run. On another phase the bit means nothing.
    #[inline(always)]
    pub fn is_cancelled(self) -> bool
        ensures { result ≡ is_cancelled self }
    {
        match self.phase() {
            Phase::New | Phase::Running => self.is_marked(),
            Phase::Vacant | Phase::Done | Phase::Failed => false,
        }
    }

    /// How far the task has come: 0 where it is vacant, and in run n `1 + 2n` where it waits,
    /// `2 + 2n` where it is run, and `3 + 2n` where it has ended. No move lowers it.
    pub fn rank(self) -> u64
        ensures { result ≡ rank self }
    {
        let run = u64::from(self.run());
        match self.phase() {
            Phase::Vacant => 0,
            Phase::New => 1 + 2 * run,
            Phase::Running => 2 + 2 * run,
            Phase::Done | Phase::Failed => 3 + 2 * run,
        }
    }

    /// The word as a number: `8 * run + phase`, where vacant is 0, new 1, running 2, done 3 and
    /// failed 4, plus 2^63 where the bit is set.
    #[inline(always)]
    pub fn value(self) -> u64
        ensures value { result ≡ value self }
        ensures word { IsWord self }
    {
        self.number
    }

    /// The word once the task is submitted: new in run 0, and the bit is cleared. The word is vacant, with
    /// the bit or without.
    #[inline(always)]
    pub fn submitted(self) -> Word
        requires { self.phase ≡ Vacant }
        ensures { result ≡ submitted self }
    {
        Word::new_run(0)
    }

    /// The word once the task's run begins. The task waits and is not cancelled.
    #[inline(always)]
    pub fn started(self) -> Word
        requires phase { self.phase ≡ New }
        requires live { is_cancelled self ≡ false }
        ensures { result ≡ started self }
    {
        // Running is the number behind new.
        let running = self.number + 1;
        Word { number: running }
    }

    /// The word once the task waits for its next run. The task is run and is not cancelled, and its run is
    /// below 4,294,967,295.
    #[inline(always)]
    pub fn rearmed(self) -> Word
        requires phase { self.phase ≡ Running }
        requires live { is_cancelled self ≡ false }
        requires run { self.run + 1 < 2 ^ 32 }
        ensures { result ≡ rearmed self }
    {
        // One run more is eight more, and new is the number before running.
        let next = self.number + 7;
        Word { number: next }
    }

    /// The word once the task's run ended well and was its last. The task is run and is not cancelled.
    #[inline(always)]
    pub fn done(self) -> Word
        requires phase { self.phase ≡ Running }
        requires live { is_cancelled self ≡ false }
        ensures { result ≡ ended_well self }
    {
        // Done is the number behind running.
        let done = self.number + 1;
        Word { number: done }
    }

    /// The word once the task's run failed. The task is run and is not cancelled.
    #[inline(always)]
    pub fn failed(self) -> Word
        requires phase { self.phase ≡ Running }
        requires live { is_cancelled self ≡ false }
        ensures { result ≡ ended_badly self }
    {
        // Failed is the number behind done.
        let failed = self.number + 2;
        Word { number: failed }
    }

    /// The word with the bit, whatever it is.
    #[inline(always)]
    pub fn with_cancel_bit(self) -> Word
        ensures { result ≡ marked self }
    {
        Word {
            number: self.number | BIT,
        }
    }

    /// The word that has this value.
    #[inline(always)]
    pub(crate) fn of_value(value: u64) -> Word
        requires { IsWord (word_of_value value) }
        ensures { result ≡ word_of_value value }
    {
        // Above 4, the number of failed, a phase is read as failed too.
        let phase = value % 8;
        Word {
            number: if phase > 4 {
                value - (phase - 4)
            } else {
                value
            },
        }
    }
}
