//! The name of a task.
//!
//! # Usage
//!
//! ```rust
//! let text = "backup";
//! assert!(rt; is_name(text));
//! let name = Name::new(text); // a copy of it
//! assert_eq!(rt; name.as_str(), "backup");
//! assert!(rt; !is_name("back up"));
//! ```
//!
//! # Behaviour
//!
//! A name has 1 to 32 ASCII letters, digits, `-` and `_` ([`is_name`]). That is this project's rule: a task of Java's executor
//! has no name. [`Name::new`] is for a text that can be one.
//!
//! # Memory and cost
//!
//! A [`Name`] holds its bytes itself, so it takes no memory of an allocator. A text is gone over once.
//!
//! # Tests
//!
//! They stand in `plan_tests`.

mod name;

pub use name::{Name, is_name};
