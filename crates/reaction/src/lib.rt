//! What a delivered message does, worked out as a value before anything is altered.
#![tactic(auto)]

mod at_reader;
mod at_replica;
mod at_writer;
mod reaction;
mod receiving;

pub use reaction::{Finish, Post, Reaction};
pub use receiving::react;
