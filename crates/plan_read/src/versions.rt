//! The versions of a plan.

ghost use Rattle.std.specs.Prelude.{◌≡◌};
ghost use Rattle.plan_read.specs.own.Values.{version_of};

/// The version of a plan: how its tables give units.
#[derive(Clone, Copy)]
pub enum Version {
    /// A block has one unit for all its times.
    One,
    /// Each time has its own unit.
    Two,
}

impl Version {
    /// The version of this number, if there is one.
    pub(crate) fn of_number(number: i64) -> Option<Version>
        ensures { result ≡ version_of number }
    {
        match number {
            1 => Some(Version::One),
            2 => Some(Version::Two),
            _ => None,
        }
    }
}
