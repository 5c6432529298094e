//! What is wrong with a plan's text, as numbers.
ghost use Rattle.std.specs.Prelude.{◌≡◌};
ghost use Rattle.sched_c.specs.Numbers.{number_of_kind};
ghost use Rattle.sched_c.specs.Faults.{fault_of};

use plan_read::{PlanFault, PlanFaultKind};

/// What is wrong with a plan's text, and where.
#[repr(C)]
#[derive(Clone, Copy, Debug, PartialEq, Eq)]
pub struct Fault {
    /// 1 to 16; 0 where nothing is wrong.
    pub kind: u32,
    /// The block, numbered from 1; 0 where the fault is in no block.
    pub block: u32,
    /// The call in its block, numbered from 1; 0 where the fault is in no call.
    pub call: u32,
}

impl Fault {
    /// Nothing is wrong.
    pub fn none() -> Fault
        ensures { result ≡ record { kind = 0; block = 0; call = 0 } }
    {
        Fault {
            kind: 0,
            block: 0,
            call: 0,
        }
    }

    /// The numbers of a fault.
    pub fn of(fault: PlanFault) -> Fault
        ensures { result ≡ fault_of fault }
    {
        Fault {
            kind: kind_number(fault.kind),
            block: fault.block,
            call: fault.call,
        }
    }
}

/// The number of a kind of fault: 1 to 16 in the order in which they stand, and 0 for want of memory, which says nothing of
/// the text.
fn kind_number(kind: PlanFaultKind) -> u32
    ensures { result ≡ number_of_kind kind }
{
    match kind {
        PlanFaultKind::Memory => 0,
        PlanFaultKind::TooLong => 1,
        PlanFaultKind::Toml => 2,
        PlanFaultKind::Version => 3,
        PlanFaultKind::UnknownKey => 4,
        PlanFaultKind::Missing => 5,
        PlanFaultKind::WrongType => 6,
        PlanFaultKind::BadUnit => 7,
        PlanFaultKind::BadTimes => 8,
        PlanFaultKind::Negative => 9,
        PlanFaultKind::BadName => 10,
        PlanFaultKind::DuplicateName => 11,
        PlanFaultKind::UnknownName => 12,
        PlanFaultKind::Ambiguous => 13,
        PlanFaultKind::OutOfOrder => 14,
        PlanFaultKind::TooLarge => 15,
        PlanFaultKind::TooMany => 16,
    }
}
