//! A happening in 16 bytes: the shape of [`Happening`] nests an [`Ending`], whose tag takes eight more.
ghost use Rattle.std.specs.Prelude.{◌≡◌};
ghost use Rattle.executor_model.specs.own.Kept.{happening_of_flat, flat_of};

use crate::types::Happening;
use sched_time::Ending;
use std::marker::Model;

/// A [`Happening`] as a list of many keeps it: 16 bytes, where the happening itself takes 24.
#[derive(Clone, Copy, Debug)]
pub struct KeptHappening {
    flat: Flat,
}

/// A [`Happening`] without nesting.
#[derive(Clone, Copy, Debug)]
enum Flat {
    Call,
    Clock(u64),
    Start(u8),
    Done(u8, u64),
    Failed(u8, u32),
    Cancel(u32),
    Purge,
}

const _: () = prove!(size_of::<KeptHappening>() == 16);

impl Model for KeptHappening {
    ghost use Rattle.executor_model.specs.declared.types.Happening.{Happening as OneHappening};
    ghost use Rattle.executor_model.specs.own.Kept.{happening_of_flat, flat_of, flat_of_happening};

    ghost Value = { OneHappening };

    ghost view = { λ k. happening_of_flat k.flat };

    ghost inverse = { λ v. record { flat = flat_of v } };

    ghost inverse_ok = { λ k h. flat_of_happening (λ flat. record { flat = flat }) k.flat };
}

impl KeptHappening {
    /// This happening, to be kept.
    #[inline(always)]
    pub fn new(happening: Happening) -> KeptHappening
        ensures { result ≡ happening }
    {
        let flat = match happening {
            Happening::Call => Flat::Call,
            Happening::Clock(moment) => Flat::Clock(moment),
            Happening::Start(worker) => Flat::Start(worker),
            Happening::Finish(worker, Ending::Value(value)) => Flat::Done(worker, value),
            Happening::Finish(worker, Ending::Fault(code)) => Flat::Failed(worker, code),
            Happening::Cancel(task) => Flat::Cancel(task),
            Happening::Purge => Flat::Purge,
        };
        KeptHappening { flat }
    }

    /// The happening that is kept.
    #[inline(always)]
    pub fn happening(self) -> Happening
        ensures { result ≡ self }
    {
        match self.flat {
            Flat::Call => Happening::Call,
            Flat::Clock(moment) => Happening::Clock(moment),
            Flat::Start(worker) => Happening::Start(worker),
            Flat::Done(worker, value) => Happening::Finish(worker, Ending::Value(value)),
            Flat::Failed(worker, code) => Happening::Finish(worker, Ending::Fault(code)),
            Flat::Cancel(task) => Happening::Cancel(task),
            Flat::Purge => Happening::Purge,
        }
    }
}
