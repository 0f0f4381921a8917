//! Text by lines, fields and numbers: how lines are read from bytes and printed into a buffer.
//!
//! It knows nothing of what the lines say.
#![tactic(auto)]

mod cuts;
mod fields;
mod lines;
mod numbers;
mod print;

pub use fields::{FieldCursor, is_word};
pub use lines::{LineCursor, is_text};
pub use numbers::{number, signed_number};
pub use print::{put_bytes, put_number, put_signed};
