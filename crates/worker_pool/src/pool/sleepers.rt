//! How many workers of a pool sleep, and how many of them were woken.
ghost use Rattle.std.specs.Prelude.{◌≡◌, ◌<◌, ◌↔◌, IsTrue};
ghost use Rattle.worker_pool.specs.own.Shifts.{no_sleepers, rested, risen, called, IsCallable};

/// Workers that sleep, counted under the lock of their pool.
#[derive(Clone, Copy, Debug, PartialEq, Eq)]
pub struct Sleepers {
    /// How many sleep, or were woken and are not yet back at the lock.
    asleep: u64,
    /// How many of these are counted as woken. Whoever is back takes one away, also where another was woken.
    coming: u64,
}

impl Sleepers {
    /// None sleeps.
    pub fn new() -> Sleepers
        ensures { result ≡ no_sleepers }
    {
        Sleepers {
            asleep: 0,
            coming: 0,
        }
    }

    /// One more goes to sleep.
    pub fn rest(&mut self)
        ensures { self.new ≡ rested self.old }
    {
        self.asleep = self.asleep.saturating_add(1);
    }

    /// One that slept is back.
    pub fn rise(&mut self)
        ensures { self.new ≡ risen self.old }
    {
        self.asleep = self.asleep.saturating_sub(1);
        self.coming = self.coming.saturating_sub(1);
    }

    /// Whether some sleep, and none of them is counted as woken.
    pub fn is_callable(&self) -> bool
        ensures { IsTrue result ↔ IsCallable self.now }
    {
        self.asleep > 0 && self.coming == 0
    }

    /// One is to be woken.
    pub fn call(&mut self)
        ensures { self.new ≡ called self.old }
    {
        self.coming = self.coming.saturating_add(1);
    }
}
