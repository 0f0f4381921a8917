//! Scripts as text: their lines, the first line and the rule that it names, the call lines, and the lines that answer them.
//!
//! Every reader is equal to its definition in specs/ for every input, and so is the printer. A fault passes up from
//! figure to text to script with its cause whole.
#![tactic(auto)]

mod answer;
mod calls;
mod examples;
mod fault;
mod header;
mod making;
mod rule;
mod words;

pub use answer::print_answer;
pub use calls::read_call;
pub use fault::{ScriptFault, TextFault};
pub use header::{Header, Kind, RuleText, read_header};
pub use making::make_rule;
pub use rule::ScriptRule;
