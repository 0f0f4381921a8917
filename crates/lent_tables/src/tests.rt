//! What no script can show of a register over lent tables.

mod any_rule;
mod calls;
mod changes;
mod commissioning;
mod fixture;
mod lengths;
mod records;
mod refusals;
mod soundness;
