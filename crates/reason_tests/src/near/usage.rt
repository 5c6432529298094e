//! The examples of the comments, as they stand there: `tools/docs` compares them.
use super::near;
use near_words::FileName;
use std::test::Fail;

#[test]
fn the_page_is_run(rt: HostRuntime) -> Result<(), Fail> {
    let alloc = rt.alloc();
    // example: near_words
    let words = ["clock", "start", "cancel"];
    let clock = ["clock"].as_slice();
    assert_eq!(rt; near(alloc, "clok", &words)?.as_slice(), clock);
    assert_eq!(rt; near(alloc, "CLOCK", &words)?.as_slice(), clock);
    assert!(rt; near(alloc, "stop", &words)?.is_empty());
    let name = format!(in alloc; "{}", FileName("a\nb.toml"))?;
    assert_eq!(rt; name.as_str(), "a\\nb.toml"); // in one line
    // end of example
    Ok(())
}
