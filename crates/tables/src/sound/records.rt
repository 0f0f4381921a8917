//! One reader, and one waiting message: the tests that a pass over their tables makes.
ghost use Rattle.std.specs.Prelude.{◌≡◌, ◌&&◌, List};
ghost use Rattle.model.specs.declared.reader.Reader.{Reader as ReaderOf};
ghost use Rattle.model.specs.State.{line as line_of};
ghost use Rattle.model.specs.Sound.{in_journal, recorded as is_booked, own_read as is_own_read, placed as is_placed};
ghost use Rattle.tables.specs.Judged.{of_size, register_of, reader_sound, message_sound};

use super::lines::{line_of, recorded};
use super::parties::suits;
use super::sets::reader_within;
use model::{Message, MessageKind, Operation, OperationKind, Party, Phase, Reader};

/// Whether the line is a read whose owner is the reader of this number.
fn own_read<F: Copy>(number: usize, line: &Operation<F>) -> bool
    ensures { result ≡ is_own_read number line.now }
{
    matches!(
        (line.kind, line.owner),
        (OperationKind::Read(_), Party::Reader(owner)) if owner as usize == number
    )
}

/// Whether the operation is in the journal, and a read of the reader of this number.
fn reads<F: Copy>(lines: &[Operation<F>], number: usize, operation: u16) -> bool
    ensures { (start : F) (readers : List (ReaderOf F)) →
        result ≡ (in_journal (register_of start readers lines.now) operation
        && is_own_read number (line_of (register_of start readers lines.now) operation)) }
{
    line_of(lines, operation).is_some_and(|line| own_read(number, line))
}

/// Whether the reader of this number is idle with operation 0, or has a read of its own under way.
fn placed<F: Copy>(lines: &[Operation<F>], number: usize, reader: &Reader<F>) -> bool
    ensures { (start : F) (readers : List (ReaderOf F)) →
        result ≡ is_placed (register_of start readers lines.now) number reader.now }
{
    match reader.phase {
        Phase::Idle => reader.operation == 0,
        Phase::First | Phase::Second | Phase::Relay => reads(lines, number, reader.operation),
    }
}

/// Whether the reader of this number has sets of replicas only, and is idle or has a read of its own under way.
pub fn reader_sound<F: Copy>(
    size: u32,
    lines: &[Operation<F>],
    number: usize,
    reader: &Reader<F>,
) -> bool
    ensures { (start : F) (readers : List (ReaderOf F)) →
        result ≡ reader_sound (of_size size) (register_of start readers lines.now) number reader.now }
{
    reader_within(size, reader) && placed(lines, number, reader)
}

/// Whether the operation is in the journal, and its line can have a waiting message of this kind.
fn line_recorded<F: Copy>(
    readers: &[Reader<F>],
    lines: &[Operation<F>],
    kind: MessageKind,
    operation: u16,
) -> bool
    ensures { (start : F) →
        result ≡ (in_journal (register_of start readers.now lines.now) operation
        && is_booked (register_of start readers.now lines.now) kind
        (line_of (register_of start readers.now lines.now) operation)) }
{
    line_of(lines, operation).is_some_and(|line| recorded(readers, kind, line))
}

/// Whether the message is addressed, and its line is of an operation that it can serve.
pub fn message_sound<F: Copy>(
    size: u32,
    readers: &[Reader<F>],
    lines: &[Operation<F>],
    message: &Message<F>,
) -> bool
    ensures { (start : F) →
        result ≡ message_sound (of_size size) (register_of start readers.now lines.now)
        message.now }
{
    suits(
        size,
        readers,
        message.kind,
        message.sender,
        message.receiver,
    ) && line_recorded(readers, lines, message.kind, message.operation)
}
