//! The figures that a tide register keeps: tides and digging orders.
//!
//! A figure is a plain `Copy` value whose numbers lie in their ranges by its type. Each kind of figure is read from the
//! fields of a line of text, which tabs part, and printed into a buffer; `FigureKind` is what both kinds share.
#![tactic(auto)]

mod examples;
mod fault;
mod kind;
mod limits;
mod order;
mod tide;

pub use fault::FigureFault;
pub use kind::FigureKind;
pub use limits::{Depth, Level, Minute, Section, UpTo};
pub use order::{Arm, DigOrder};
pub use tide::Tide;
