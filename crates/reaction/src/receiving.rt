ghost use Rattle.std.specs.Prelude.{◌≡◌, ℕ, pred, ◌≤◌, length, take, slice_index_or};
ghost use Rattle.model.specs.declared.journal.Operation.{Operation as LineOf};
ghost use Rattle.reaction.specs.Reactions.{reaction, beside_messages, Deliverable};
ghost use Rattle.tables.specs.View.{rule_for};

use crate::at_reader::to_reader;
use crate::at_replica::to_replica;
use crate::at_writer::to_writer;
use crate::reaction::Reaction;
use model::{Message, Operation, Party, Reader, RelayMark, Replica};
use quorum::QuorumSystem;
use tables::Numbers;

/// The line of an operation that is in the journal. So it is no `Option`, as `line_of` in `tables` is.
fn line_of<F: Copy>(journal: &[Operation<F>], operation: u16) -> &Operation<F>
    requires { (1 ≤ operation) × (operation ≤ length journal.now) }
    ensures { (lines : ℕ) (d : LineOf F) → operation ≤ length (take lines journal.now) → result.now ≡ slice_index_or (take lines journal.now) (pred operation) d }
{
    &journal[usize::from(operation) - 1]
}

/// What a message does that is delivered. Nothing is altered: the tables are only read.
// The tables are lent slices, handed to each call one by one.
pub fn react<R: QuorumSystem, F: Copy>(
    rule: &R,
    start: F,
    numbers: &Numbers,
    replicas: &[Replica<F>],
    readers: &[Reader<F>],
    marks: &[RelayMark],
    journal: &[Operation<F>],
    message: &Message<F>,
) -> Reaction<F>
    requires { Deliverable (rule_for R.QuorumSystem rule.now numbers.now.replicas) numbers.now (beside_messages start numbers.now replicas.now readers.now marks.now journal.now) message.now }
    ensures { result ≡ reaction (rule_for R.QuorumSystem rule.now numbers.now.replicas) (beside_messages start numbers.now replicas.now readers.now marks.now journal.now) message.now }
{
    let line = line_of(journal, message.operation);
    match message.receiver {
        Party::Writer => to_writer(rule, numbers.writer, line, message),
        Party::Reader(r) => to_reader(rule, r, &readers[r as usize], line.kind, message),
        Party::Replica(c) => to_replica(
            rule,
            start,
            c,
            &replicas[c as usize],
            line.owner,
            numbers.readers,
            marks,
            message,
        ),
    }
}
