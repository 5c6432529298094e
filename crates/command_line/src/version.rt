//! The version of the program.

/// The version, and the toolchain that proved and built it. `tools/version` sets it.
pub const VERSION: &str = "0.1.0 (rattle-kit-13f logic dac8208d650f15bf)";
