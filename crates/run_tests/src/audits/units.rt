//! A plan whose unit is that of its block, and the text to which it is migrated.
use super::*;
use scripted_runs::times::A_DELAY_IN_SECONDS;

#[test]
fn a_migrated_plan_has_the_unit_beside_the_time(rt: HostRuntime) -> Result<(), Fail> {
    let text = migrate(rt.alloc(), A_DELAY_IN_SECONDS.plan.as_bytes())?;
    let migrated = "\
version = 2

[[block]]

[[block.call]]
delay = 4611686018
delay_unit = \"s\"
name = \"a\"
op = \"schedule\"
";
    assert!(rt; text.as_str() == migrated, "{text}");
    Ok(())
}
