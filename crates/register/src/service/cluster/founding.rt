ghost use Rattle.std.specs.Prelude.{◌≡◌, replicate, true, IfOk, vec_len};
ghost use Rattle.register.specs.Service.{rooms_fit};
ghost use Rattle.register.specs.Clusters.{Made, Founded};

use super::{Cluster, OwnedTables, Unfounded, UnfoundedCause};
use crate::service::Draft;
use model::{Message, Operation, Reader, Refusal, RelayMark, Replica};
use quorum::QuorumSystem;
use std::alloc::{AllocError, Global};

impl<R: QuorumSystem, F: Copy> Draft<R, F> {
    /// Puts the register into service over tables of its own, with room for so many messages and lines.
    ///
    /// For a rule of S replicas the rooms are S to 4,096 messages and 1 to 4,096 lines. With another room the draft comes back with
    /// `TableLength` (3), and else for want of memory.
    pub fn found(
        self,
        heap: Global,
        message_room: usize,
        journal_room: usize,
    ) -> Result<Cluster<R, F>, Unfounded<R, F>>
        ensures { Founded R.QuorumSystem self message_room journal_room result }
    {
        if !self.rooms_fit(message_room, journal_room) {
            return Err(Unfounded {
                draft: self,
                cause: UnfoundedCause::Refused(Refusal::TableLength),
            });
        }
        match self.new_tables(heap, message_room, journal_room) {
            Ok(tables) => Ok(Cluster {
                register: self.open(message_room, journal_room),
                tables,
            }),
            Err(e) => Err(Unfounded {
                draft: self,
                cause: UnfoundedCause::Memory(e),
            }),
        }
    }

    // The tables that it needs, new, with room for so many messages and lines.
    fn new_tables(
        &self,
        heap: Global,
        message_room: usize,
        journal_room: usize,
    ) -> Result<OwnedTables<F>, AllocError>
        requires { rooms_fit self.now message_room journal_room ≡ true }
        ensures { IfOk result (Made self.now message_room journal_room) }
    {
        let start = self.start;
        let size = self.replicas as usize;
        let width = self.readers as usize;
        Ok(OwnedTables {
            replicas: filled(heap, size, Replica::new(start))?,
            readers: filled(heap, width, Reader::new(start))?,
            marks: filled(heap, size * width, RelayMark::default())?,
            // as much room again, so that the table seldom has to move
            queue: filled(heap, 2 * message_room, Message::blank(start))?,
            head: 0,
            journal: filled(heap, journal_room, Operation::blank(start))?,
        })
    }
}

// A table of so many copies of an item. `vec![..; n]` would clone it, and `A: Copy` does not say that a clone is the item.
fn filled<A: Copy>(heap: Global, count: usize, item: A) -> Result<Vec<A>, AllocError>
    ensures { IfOk result (λ v. (v.items ≡ replicate count item) × (vec_len v ≡ count)) }
{
    let mut table = Vec::new(heap);
    table.resize(count, item)?;
    Ok(table)
}
