//! Submissions by their names.

ghost use Rattle.std.specs.Prelude.{◌≡◌, ℕ, List, IfErr, IfOk, OnOk, Some, if◌then◌else◌, bytes_eq};
ghost use Rattle.plan_read.specs.declared.faults.ReadError.TheVariants as errors;
ghost use Rattle.plan_read.specs.own.Reads.{found_in};

use crate::faults::ReadError;
use crate::plans::Target;
use std::alloc::Allocator;
use std::collections::BTreeMap;

/// A submission as the calls behind it see it.
#[derive(Clone, Copy)]
pub struct Site {
    /// Which submission it is.
    pub target: Target,
    /// Whether its block is made more than once.
    pub repeated: bool,
}

/// The submission of a name, if there is one.
pub fn find<'a, A: Allocator + Copy>(
    names: &BTreeMap<&'a str, Site, A>,
    name: &'a str,
) -> Option<Site>
    ensures { result ≡ found_in names.now name.now }
{
    names.get(name).copied()
}

/// The submission of a name, if there was one before the name became that of `site`.
pub fn add<'a, A: Allocator + Copy>(
    names: &mut BTreeMap<&'a str, Site, A>,
    name: &'a str,
    site: Site,
) -> Result<Option<Site>, ReadError>
    ensures found { IfOk result (λ found. found ≡ found_in names.old name.now) }
    ensures added { OnOk result
        ((q : List ℕ)
        → found_in names.new q ≡ if bytes_eq name.now q then Some site else found_in names.old q) }
    ensures memory { IfErr result (λ e. e ≡ errors.Memory) }
{
    Ok(names.insert(name, site)?)
}
