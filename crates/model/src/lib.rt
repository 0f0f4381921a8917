//! The replicated register: the records of its tables, its calls and their answers.
//!
//! The code here is data. What each call does, and what is promised of every history of calls, stands in specs/;
//! `register_serves` has the promise as its contract.
#![tactic(auto)]

mod answers;
mod calls;
mod journal;
mod marks;
mod messages;
mod parties;
mod reader;
mod refute;
mod replica;
mod service;
mod worked;
mod writer;

pub use answers::{Refusal, Reply};
pub use calls::Call;
pub use journal::{Operation, OperationKind, ReadKind};
pub use marks::RelayMark;
pub use messages::{Message, MessageKind};
pub use parties::Party;
pub use reader::{Phase, Reader};
pub use refute::claims_refutable;
pub use replica::Replica;
pub use service::register_serves;
pub use worked::worked_examples_stand;
pub use writer::Writer;
