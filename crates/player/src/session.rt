use figure::{DigOrder, Tide};
use register::{Cluster, Draft};
use script::ScriptRule;

/// A script that is being played, line by line. It has its tables, and needs no more memory.
#[derive(Drop)]
pub struct Session {
    cluster: AnyCluster,
    // the number of the next line
    number: u32,
}

/// What the first line of a script comes to.
#[derive(Drop)]
pub struct Opening {
    /// The session that plays the lines to come. None where the first line is declined: then no other is answered.
    pub session: Option<Session>,
    /// How many bytes of the buffer the answer to the first line takes.
    pub printed: usize,
}

// The register of a script, by its kind of figure.
#[derive(Drop)]
enum AnyCluster {
    Tide(Cluster<ScriptRule, Tide>),
    Order(Cluster<ScriptRule, DigOrder>),
}

// Its draft.
#[derive(Drop)]
enum AnyDraft {
    Tide(Draft<ScriptRule, Tide>),
    Order(Draft<ScriptRule, DigOrder>),
}

mod first_line;
mod next_line;
