//! What the command line of `sched` asks for.
//!
//! # Usage
//!
//! ```rust
//! let mut arguments = Vec::new(alloc);
//! for word in ["sched", "code", "plan.toml"] {
//!     arguments.push(String::from_str(alloc, word)?)?;
//! }
//! let path = match Asked::parse(alloc, &arguments) {
//!     Ok(Asked::Alone(AskedAlone::Code(code))) => code.path,
//!     _ => "another command, or a fault",
//! };
//! assert!(rt; path == "plan.toml");
//! ```
//!
//! # Behaviour
//!
//! [`Asked::parse`] reads the words of a command line, the program's name first, by the crate `clap`, and answers one value of the command
//! that they name, with its arguments. A number of workers is 1 to 64, and a limit 1 to 4,294,967,295, and 1,000,000 where it is left out.
//! A text may have any name of a file. Whether the options of `lint` go together is told by who looks at its files.
//!
//! # Errors
//!
//! An error is help, the version, a fault of the command line, or want of memory: `clap`'s own, with the text that is to be printed.
//!
//! The tests stand in `command_tests`.
#![tactic(auto)]

mod arguments;
mod command;
mod help;
mod version;

pub use arguments::{
    Asked, AskedAlone, CheckArguments, DrawArguments, LintArguments, LiveArguments, PlanArguments,
    RunArguments,
};
