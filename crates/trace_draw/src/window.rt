//! The part of time that a picture shows.
ghost use Rattle.std.specs.Prelude.{◌≡◌, ◌<◌, ◌≤◌, min, max, MatchOption};

/// The part of time that a picture shows: from one moment to another, both shown, in nanoseconds.
#[derive(Clone, Copy, Debug, PartialEq, Eq)]
pub struct Window {
    from: u64,
    to: u64,
    ghost ordered: { from ≤ to },
}

impl Window {
    /// The window from one moment to another: `None` exactly where the second is below the first.
    pub fn new(from: u64, to: u64) -> Option<Window>
        ensures { MatchOption result (to < from)
            (λ w. (w.from ≡ from) × (w.to ≡ to) × (from ≤ to)) }
    {
        if to < from {
            return None;
        }
        Some(Window { from, to })
    }

    /// The first moment shown, in nanoseconds.
    pub fn from(self) -> u64
        ensures { result ≡ self.from }
    {
        self.from
    }

    /// The last moment shown, in nanoseconds: no less than the first.
    pub fn to(self) -> u64
        ensures moment { result ≡ self.to }
        ensures ordered { self.from ≤ result }
    {
        self.to
    }

    /// The window that shows one moment.
    pub(crate) fn at(moment: u64) -> Window
        ensures from { result.from ≡ moment }
        ensures to { result.to ≡ moment }
    {
        Window {
            from: moment,
            to: moment,
        }
    }

    /// The smallest window that shows what this one shows, and a moment.
    pub(crate) fn with(self, moment: u64) -> Window
        ensures from { result.from ≡ min self.from moment }
        ensures to { result.to ≡ max self.to moment }
    {
        Window {
            from: self.from.min(moment),
            to: self.to.max(moment),
        }
    }
}
