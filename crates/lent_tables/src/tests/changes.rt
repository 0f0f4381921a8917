//! What anybody may do to lent tables between two calls.

use crate::service::Tables;
use model::{Message, Operation, OperationKind, Party, Phase, Reader, RelayMark, Replica};
use std::mem;

/// A record of any of the tables.
#[derive(Clone, Copy)]
pub enum Record {
    Replica(Replica<u32>),
    Reader(Reader<u32>),
    Mark(RelayMark),
    Message(Message<u32>),
    Line(Operation<u32>),
}

/// A change of one table. All but the first two say a place, and what stands there afterwards.
#[derive(Clone, Copy)]
pub enum Change {
    /// One more record, the last.
    Longer(Record),
    /// The last record of the table that has such records is taken off.
    Shorter(Record),
    Sender(usize, Party),
    Receiver(usize, Party),
    Operation(usize, u16),
    Stamp(usize, u32),
    /// The kind and the owner of a line.
    Line(usize, OperationKind, Party),
    /// What a reader is at.
    Reader(usize, Phase, u16),
    Replies(usize, u32),
    Holders(usize, u32),
    /// The stamp of the best that a reader found.
    Best(usize, u32),
    Relayers(usize, u32),
    /// A replica's stamp.
    Replica(usize, u32),
}

impl Tables<u32> {
    /// Makes a change, and gives the one that takes it back. None, and nothing is changed, where there is no such place, or no memory.
    pub(super) fn change(&mut self, change: Change) -> Option<Change> {
        match change {
            Change::Longer(record) => self.longer(record),
            Change::Shorter(like) => self.shorter(like),
            Change::Sender(place, party) => {
                let sender = &mut self.messages.get_mut(place)?.sender;
                Some(Change::Sender(place, mem::replace(sender, party)))
            }
            Change::Receiver(place, party) => {
                let receiver = &mut self.messages.get_mut(place)?.receiver;
                Some(Change::Receiver(place, mem::replace(receiver, party)))
            }
            Change::Operation(place, number) => {
                let operation = &mut self.messages.get_mut(place)?.operation;
                Some(Change::Operation(place, mem::replace(operation, number)))
            }
            Change::Stamp(place, number) => {
                let stamp = &mut self.messages.get_mut(place)?.stamp;
                Some(Change::Stamp(place, mem::replace(stamp, number)))
            }
            Change::Line(place, kind, owner) => {
                let line = self.journal.get_mut(place)?;
                let kind = mem::replace(&mut line.kind, kind);
                Some(Change::Line(place, kind, mem::replace(&mut line.owner, owner)))
            }
            Change::Reader(place, phase, operation) => {
                let reader = self.readers.get_mut(place)?;
                let phase = mem::replace(&mut reader.phase, phase);
                let operation = mem::replace(&mut reader.operation, operation);
                Some(Change::Reader(place, phase, operation))
            }
            Change::Replies(place, set) => {
                let replies = &mut self.readers.get_mut(place)?.replies;
                Some(Change::Replies(place, mem::replace(replies, set)))
            }
            Change::Holders(place, set) => {
                let holders = &mut self.readers.get_mut(place)?.holders;
                Some(Change::Holders(place, mem::replace(holders, set)))
            }
            Change::Best(place, number) => {
                let stamp = &mut self.readers.get_mut(place)?.best_stamp;
                Some(Change::Best(place, mem::replace(stamp, number)))
            }
            Change::Relayers(place, set) => {
                let relayers = &mut self.marks.get_mut(place)?.relayers;
                Some(Change::Relayers(place, mem::replace(relayers, set)))
            }
            Change::Replica(place, number) => {
                let stamp = &mut self.replicas.get_mut(place)?.stamp;
                Some(Change::Replica(place, mem::replace(stamp, number)))
            }
        }
    }

    fn longer(&mut self, record: Record) -> Option<Change> {
        match record {
            Record::Replica(replica) => self.replicas.push(replica).ok()?,
            Record::Reader(reader) => self.readers.push(reader).ok()?,
            Record::Mark(mark) => self.marks.push(mark).ok()?,
            Record::Message(message) => self.messages.push(message).ok()?,
            Record::Line(line) => self.journal.push(line).ok()?,
        }
        Some(Change::Shorter(record))
    }

    fn shorter(&mut self, like: Record) -> Option<Change> {
        let last = match like {
            Record::Replica(_) => Record::Replica(self.replicas.pop()?),
            Record::Reader(_) => Record::Reader(self.readers.pop()?),
            Record::Mark(_) => Record::Mark(self.marks.pop()?),
            Record::Message(_) => Record::Message(self.messages.pop()?),
            Record::Line(_) => Record::Line(self.journal.pop()?),
        };
        Some(Change::Longer(last))
    }
}
