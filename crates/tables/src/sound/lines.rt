//! The lines of the journal: which line an operation has, and which messages a line can have.
ghost use Rattle.std.specs.Prelude.{◌≡◌, true, false, List, MatchOption};
ghost use Rattle.model.specs.declared.reader.Reader.{Reader as ReaderOf};
ghost use Rattle.model.specs.declared.journal.Operation.{Operation as Line};
ghost use Rattle.model.specs.State.{line as line_of};
ghost use Rattle.model.specs.Sound.{in_journal, serves as is_served, owned as is_owned, recorded as is_booked};
ghost use Rattle.tables.specs.Judged.{register_of};

use super::parties::is_reader;
use model::{MessageKind, Operation, OperationKind, Party, ReadKind, Reader};

/// The line of an operation, if the journal has it. Operations are numbered from 1.
// 1 is taken off at four places, each time of a number of which another thing is known: here it may be 0, and then there is no line.
pub fn line_of<F: Copy>(lines: &[Operation<F>], operation: u16) -> Option<&Operation<F>>
    ensures { (start : F) (readers : List (ReaderOf F)) →
        MatchOption result (in_journal (register_of start readers lines.now) operation ≡ false)
        (λ o. (in_journal (register_of start readers lines.now) operation ≡ true)
        × (o.now ≡ line_of (register_of start readers lines.now) operation)) }
{
    lines.get(usize::from(operation).checked_sub(1)?)
}

/// Whether a message of this kind serves an operation of that kind.
pub fn serves(kind: MessageKind, operation: OperationKind) -> bool
    ensures { result ≡ is_served kind operation }
{
    match kind {
        MessageKind::Put | MessageKind::PutAck => operation == OperationKind::Write,
        MessageKind::Query | MessageKind::Have | MessageKind::Back | MessageKind::BackAck => {
            matches!(
                operation,
                OperationKind::Read(ReadKind::Quick | ReadKind::Settled)
            )
        }
        MessageKind::Fan | MessageKind::Relay | MessageKind::Reply => {
            operation == OperationKind::Read(ReadKind::Relay)
        }
    }
}

/// Whether the owner is one who can have an operation of this kind: the writer a write, a reader that exists a read.
pub fn owned<F: Copy>(readers: &[Reader<F>], kind: OperationKind, owner: Party) -> bool
    ensures { (start : F) (lines : List (Line F)) →
        result ≡ is_owned (register_of start readers.now lines) kind owner }
{
    match kind {
        OperationKind::Write => owner == Party::Writer,
        OperationKind::Read(_) => is_reader(readers, owner),
    }
}

/// Whether a message of this kind serves the line, and the line's owner is one who can have it.
pub fn recorded<F: Copy>(readers: &[Reader<F>], kind: MessageKind, line: &Operation<F>) -> bool
    ensures { (start : F) (lines : List (Line F)) →
        result ≡ is_booked (register_of start readers.now lines) kind line.now }
{
    serves(kind, line.kind) && owned(readers, line.kind, line.owner)
}
