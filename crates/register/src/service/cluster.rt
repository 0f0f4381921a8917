ghost use Rattle.std.specs.Prelude.{◌≡◌, ◌+◌, ◌<◌, ◌≤◌, true, vec_len};
ghost use Rattle.model.specs.Sound.{sound as is_sound};
ghost use Rattle.tables.specs.Judged.{of_size};
ghost use Rattle.tables.specs.View.{view, Fitting};
ghost use Rattle.register.specs.Owned.{owned};

use super::{Draft, Register};
use model::{Message, Operation, Reader, Refusal, RelayMark, Replica};
use std::alloc::AllocError;

/// The five tables, owned.
#[derive(Drop)]
struct OwnedTables<F> {
    replicas: Vec<Replica<F>>,
    readers: Vec<Reader<F>>,
    marks: Vec<RelayMark>,
    /// The table of messages is the part that begins at `head`: so the first ones can be taken out without moving the others.
    queue: Vec<Message<F>>,
    head: usize,
    journal: Vec<Operation<F>>,
}

/// A register in service that owns its tables. Nobody else writes into them, so they stay sound, and no call checks them again.
#[derive(Drop)]
pub struct Cluster<R, F> {
    register: Register<R, F>,
    tables: OwnedTables<F>,
    ghost fits: { Fitting register.numbers (owned register.numbers.message_room tables) },
    ghost queue_fits: { tables.head + register.numbers.message_room ≤ vec_len tables.queue },
    ghost queue_slack: { register.numbers.message_room < vec_len tables.queue },
    ghost sound: { is_sound (of_size register.numbers.replicas) (view register.start register.numbers (owned register.numbers.message_room tables)) ≡ true },
}

/// A draft that was not put into service over tables of its own, and why.
#[derive(Drop)]
pub struct Unfounded<R, F> {
    pub draft: Draft<R, F>,
    pub cause: UnfoundedCause,
}

/// Why a draft was not put into service over tables of its own.
#[derive(Debug, Drop)]
pub enum UnfoundedCause {
    /// A room is outside its limits: no table may have that length. Always `TableLength` (3).
    Refused(Refusal),
    /// There is no memory for the tables.
    Memory(AllocError),
}

mod closing;
mod founding;
mod stepping;
