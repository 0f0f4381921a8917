//! Tables as rows of numbers, and answers as values that can be compared: the records of the tables cannot.

use crate::service::Tables;
use model::{
    Message, Operation, OperationKind, Party, ReadKind, Reader, Refusal, RelayMark, Replica, Reply,
};
use std::alloc::{AllocError, Global};

/// A record's fields, each as a number.
pub type Row = [u32; 9];

/// An answer.
#[derive(Clone, Copy, PartialEq, Eq, Debug)]
pub enum Answer {
    Started(u16),
    Finished {
        operation: u16,
        stamp: u32,
        figure: u32,
        sent: u16,
        exchanges: u8,
    },
    Done,
    Declined(Refusal),
}

/// The answer of a call.
pub(super) fn answer_of(outcome: Result<Reply<u32>, Refusal>) -> Answer {
    match outcome {
        Ok(Reply::Started(operation)) => Answer::Started(operation),
        Ok(
            Reply::Finished {
                operation,
                stamp,
                figure,
                sent,
                exchanges,
            },
        ) => Answer::Finished {
            operation,
            stamp,
            figure,
            sent,
            exchanges,
        },
        Ok(Reply::Done) => Answer::Done,
        Err(refusal) => Answer::Declined(refusal),
    }
}

/// The rows of all tables.
pub(super) fn rows_of(heap: Global, tables: &Tables<u32>) -> Result<Vec<Row>, AllocError> {
    let mut rows = Vec::new(heap);
    for replica in tables.replicas.iter() {
        rows.push(replica_row(replica))?;
    }
    for reader in tables.readers.iter() {
        rows.push(reader_row(reader))?;
    }
    for mark in tables.marks.iter() {
        rows.push(mark_row(mark))?;
    }
    for message in tables.messages.iter() {
        rows.push(message_row(message))?;
    }
    for line in tables.journal.iter() {
        rows.push(line_row(line))?;
    }
    Ok(rows)
}

fn replica_row(replica: &Replica<u32>) -> Row {
    let halted = u32::from(replica.halted);
    [replica.stamp, replica.figure, halted, 0, 0, 0, 0, 0, 0]
}

fn reader_row(reader: &Reader<u32>) -> Row {
    [
        u32::from(reader.halted),
        u32::from(reader.operation),
        reader.phase as u32,
        reader.replies,
        reader.best_stamp,
        reader.best_figure,
        reader.holders,
        0,
        0,
    ]
}

fn mark_row(mark: &RelayMark) -> Row {
    let operation = u32::from(mark.operation);
    let replied = u32::from(mark.replied);
    [operation, mark.relayers, replied, 0, 0, 0, 0, 0, 0]
}

pub(super) fn message_row(message: &Message<u32>) -> Row {
    let (sender, sender_index) = party_numbers(message.sender);
    let (receiver, receiver_index) = party_numbers(message.receiver);
    [
        message.kind as u32,
        u32::from(message.operation),
        sender,
        sender_index,
        receiver,
        receiver_index,
        message.stamp,
        message.figure,
        0,
    ]
}

pub(super) fn line_row(line: &Operation<u32>) -> Row {
    let (owner, owner_index) = party_numbers(line.owner);
    [
        kind_number(line.kind),
        owner,
        owner_index,
        line.started,
        line.finished,
        u32::from(line.exchanges),
        line.stamp,
        line.figure,
        u32::from(line.sent),
    ]
}

fn party_numbers(party: Party) -> (u32, u32) {
    match party {
        Party::Writer => (0, 0),
        Party::Reader(reader) => (1, reader),
        Party::Replica(replica) => (2, replica),
    }
}

fn kind_number(kind: OperationKind) -> u32 {
    match kind {
        OperationKind::Write => 0,
        OperationKind::Read(ReadKind::Quick) => 1,
        OperationKind::Read(ReadKind::Settled) => 2,
        OperationKind::Read(ReadKind::Relay) => 3,
    }
}
