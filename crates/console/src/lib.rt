//! What the programs share: their argument, reading with a bound, and telling how a run ended.
#![tactic(auto)]

mod arguments;
mod ending;
mod reading;

pub use arguments::{Request, only_argument};
pub use ending::{Failure, report};
pub use reading::{read_at_most, read_file};

/// The version of the programs.
pub const VERSION: &str = "1.0.0";
