ghost use Rattle.std.specs.Prelude.{◌≡◌, ◌≤◌};
ghost use Rattle.sched_time.specs.Times.{longest};

use std::marker::Model;

/// A length of time, 0 to 2^62 nanoseconds.
#[derive(Clone, Copy, Debug, PartialEq, Eq)]
pub struct Span {
    nanos: u64,
}

impl Model for Span {
    ghost use Rattle.std.specs.Prelude.{ℕ, ◌≤◌};
    ghost use Rattle.sched_time.specs.Times.{longest};

    ghost Value = { ℕ };

    ghost view = { λ s. s.nanos };

    ghost invariant = { λ s. s.nanos ≤ longest };

    ghost inverse = { λ n. record { nanos = n } };
}

impl Span {
    /// How many nanoseconds it is, 0 to 2^62.
    pub fn nanos(self) -> u64
        ensures value { result ≡ self }
        ensures limit { result ≤ longest }
    {
        self.nanos
    }

    /// The span of `nanos` nanoseconds.
    pub(crate) fn of_nanos(nanos: u64) -> Span
        requires { nanos ≤ longest }
        ensures { result ≡ nanos }
    {
        Span { nanos }
    }
}
