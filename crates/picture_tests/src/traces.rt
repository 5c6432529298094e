//! Traces of texts.

use executor_model::Line;
use std::alloc::Global;
use std::test::Fail;
use trace_text::split_line;

/// The lines of a text, which is one of lines.
pub fn lines_of(alloc: Global, text: &str) -> Result<Vec<Line>, Fail> {
    let mut lines = Vec::new(alloc);
    let mut rest = text.as_bytes();
    for _ in 0..text.len() {
        let Some((line, behind)) = split_line(rest) else {
            break;
        };
        lines.push(line)?;
        rest = behind;
    }
    if !rest.is_empty() {
        return Err(Fail::from("no line"));
    }
    Ok(lines)
}
