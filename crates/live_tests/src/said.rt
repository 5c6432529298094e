//! What lines say, as text.
use executor_model::{Line, Message};
use std::alloc::Global;
use std::test::Fail;

/// Adds what is said at a moment.
fn add_said(text: &mut String, moment: u64, message: Message) -> Result<(), Fail> {
    writeln!(text, "{moment} {message:?}")?;
    Ok(())
}

/// What these lines say, each with its moment.
pub fn text_of_lines(alloc: Global, lines: &[Line]) -> Result<String, Fail> {
    let mut text = String::new(alloc);
    for line in lines {
        add_said(&mut text, line.moment(), line.message())?;
    }
    Ok(text)
}
