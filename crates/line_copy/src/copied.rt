//! How much was copied.
ghost use Rattle.std.specs.Prelude.{◌≡◌};

/// What of the text of some lines was copied: whole lines, the first ones.
#[repr(C)]
#[derive(Clone, Copy, Debug, PartialEq, Eq)]
pub struct Copied {
    /// How many lines.
    pub lines: usize,
    /// How many bytes, with the newline of each line.
    pub bytes: usize,
}

impl Copied {
    /// Nothing was copied.
    pub fn none() -> Copied
        ensures { result ≡ record { lines = 0; bytes = 0 } }
    {
        Copied { lines: 0, bytes: 0 }
    }
}
