//! The register's own numbers beside the five lent tables, both as one state of the model, and the check whether that state
//! may be a register's.
#![tactic(auto)]

mod numbers;
mod sound;

pub use numbers::Numbers;
pub use sound::tables_sound;
