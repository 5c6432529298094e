//! What an error says.
use trace_text::TextError;

#[test]
fn says_each_error(rt: HostRuntime) {
    let said = format!(in rt.alloc(); "{}", TextError::Memory);
    assert!(rt; said.is_ok_and(|text| text.as_str() == "out of memory"));
}
