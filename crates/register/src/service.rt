ghost use Rattle.std.specs.Prelude.{◌≤◌};
ghost use Rattle.tables.specs.View.{Kept};

use model::Refusal;
use tables::Numbers;

/// A register that is not in service yet: its rule, of 1 to 24 replicas, how many readers it will have, 1 to 32, and the figure
/// that it starts with.
#[derive(Drop)]
pub struct Draft<R, F> {
    rule: R,
    // as many as the rule has: a ghost field that cited the rule's own size would ask for a bound on R
    replicas: u32,
    readers: u32,
    start: F,
    ghost some_replica: { 1 ≤ replicas },
    ghost few_replicas: { replicas ≤ 24 },
    ghost some_reader: { 1 ≤ readers },
    ghost few_readers: { readers ≤ 32 },
}

/// A draft whose commissioning was declined, as it was, and why: always with `TableLength` (3).
// Not one type with `Unfounded`: that may also carry want of memory.
#[derive(Drop)]
pub struct Uncommissioned<R, F> {
    pub draft: Draft<R, F>,
    pub refusal: Refusal,
}

/// A register in service, over five tables that the caller lends to each call.
///
/// Each call says what it answers, and its refusals in the order of their tests. A declined call alters neither the register nor a
/// table. Places of the messages and the journal that are not in use keep what they held, whatever is called. Replicas, readers
/// and places count from 0, operations from 1.
#[derive(Drop)]
pub struct Register<R, F> {
    rule: R,
    start: F,
    numbers: Numbers,
    ghost kept: { Kept numbers },
}

mod calls;
mod closing;
pub mod cluster;
mod commissioning;
mod opening;
mod running;
