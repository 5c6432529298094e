//! Lines and columns, counted from 1.

ghost use Rattle.std.specs.Prelude.{◌≡◌};
ghost use Rattle.plan_lines.specs.Lines.{begins_character, column_after, line_after};

/// The line of what follows these bytes of a text, which begin it.
pub fn line_after(before: &[u8]) -> usize
    ensures { result ≡ line_after before.now }
{
    1 + before.iter().filter(|byte| **byte == b'\n').count()
}

/// The column of what follows these bytes of a text, which begin it. It counts characters.
pub fn column_after(before: &[u8]) -> usize
    ensures { result ≡ column_after before.now }
{
    let mut column = 1;
    for byte in before {
        if *byte == b'\n' {
            column = 1;
        } else if begins_character(*byte) {
            column += 1;
        }
    }
    column
}

/// Whether a byte of UTF-8 is the first one of its character.
fn begins_character(byte: u8) -> bool
    ensures { result ≡ begins_character byte }
{
    byte & 0xC0 != 0x80
}
