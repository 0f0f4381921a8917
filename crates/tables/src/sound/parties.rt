//! The parties of a message: who exists, and who sends what to whom.
ghost use Rattle.std.specs.Prelude.{◌≡◌, List};
ghost use Rattle.model.specs.declared.journal.Operation.{Operation as Line};
ghost use Rattle.model.specs.Sound.{a_reader, a_replica, suits as are_suited};
ghost use Rattle.tables.specs.Judged.{of_size, register_of};

use model::{MessageKind, Party, Reader};

/// Whether the party is a reader that exists.
pub fn is_reader<F: Copy>(readers: &[Reader<F>], party: Party) -> bool
    ensures { (start : F) (lines : List (Line F)) → result ≡ a_reader (register_of start readers.now lines) party }
{
    matches!(party, Party::Reader(r) if (r as usize) < readers.len())
}

/// Whether the party is a replica that exists.
fn is_replica(size: u32, party: Party) -> bool
    ensures { result ≡ a_replica (of_size size) party }
{
    matches!(party, Party::Replica(c) if c < size)
}

/// Whether both parties exist, and a message of this kind goes from the one to the other.
pub fn suits<F: Copy>(
    size: u32,
    readers: &[Reader<F>],
    kind: MessageKind,
    from: Party,
    to: Party,
) -> bool
    ensures { (start : F) (lines : List (Line F)) →
        result ≡ are_suited (of_size size) (register_of start readers.now lines) kind from to }
{
    match kind {
        MessageKind::Put => from == Party::Writer && is_replica(size, to),
        MessageKind::PutAck => is_replica(size, from) && to == Party::Writer,
        MessageKind::Query | MessageKind::Back | MessageKind::Fan => {
            is_reader(readers, from) && is_replica(size, to)
        }
        MessageKind::Have | MessageKind::BackAck | MessageKind::Reply => {
            is_replica(size, from) && is_reader(readers, to)
        }
        MessageKind::Relay => is_replica(size, from) && is_replica(size, to),
    }
}
