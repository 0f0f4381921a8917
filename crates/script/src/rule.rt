use quorum::{Count, Grid, Groups, Lead};

/// A rule that a script can name.
#[derive(Drop)]
pub enum ScriptRule {
    Count(Count),
    Grid(Grid),
    Lead(Lead<Count>),
    Groups(Groups<Count, Count>),
}

mod questions;
