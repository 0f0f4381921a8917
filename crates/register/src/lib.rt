//! The register: a draft is commissioned over five lent tables, and each call on it does exactly the model's step.
//!
//! Every call says in its contract which answer it gives and what every place of the tables holds after it, and carries the
//! claims over every history that led to it. `Cluster` owns its tables, so that it need not check them.
//!
//! The five tables are lent to each call as five slices, not as one struct: they are the caller's memory, of fixed size, read
//! by field and written whole, and a call borrows for writing only those that it alters.
#![tactic(auto)]

mod service;
mod tally;

pub use service::cluster::{Cluster, Unfounded, UnfoundedCause};
pub use service::{Draft, Register, Uncommissioned};
pub use tally::Tally;
