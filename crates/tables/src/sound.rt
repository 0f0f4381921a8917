//! Whether lent tables are sound, that is, may be those of a register in service: one pass over readers, marks and messages.
ghost use Rattle.std.specs.Prelude.{◌≡◌, ◌≤◌, ◌&&◌, List, length, take};
ghost use Rattle.std.specs.List.{list_all};
ghost use Rattle.quorum.specs.Sets.{Rule};
ghost use Rattle.model.specs.declared.replica.Replica.{Replica as ReplicaOf};
ghost use Rattle.model.specs.Sound.{each_from, mark_within, sound as is_sound};
ghost use Rattle.tables.specs.Judged.{of_size, register_of, reader_sound, message_sound};
ghost use Rattle.tables.specs.View.{tables, view};

use self::records::{message_sound, reader_sound};
use self::sets::mark_within;
use crate::numbers::Numbers;
use model::{Message, Operation, Reader, RelayMark};

// Size, readers and lines stay parameters: so each test names those that it reads (`suits` no lines, `reader_sound` no readers),
// and its contract holds with any others, which a method of a struct of the three would not say.
mod lines;
mod parties;
mod records;
mod sets;

/// Whether the tables may be those of a register in service. Of the messages those that wait are judged; of the journal, the lines
/// that a reader or a waiting message names.
pub fn tables_sound<F: Copy>(
    numbers: &Numbers,
    readers: &[Reader<F>],
    marks: &[RelayMark],
    messages: &[Message<F>],
    journal: &[Operation<F>],
) -> bool
    requires waiting { numbers.now.waiting ≤ length messages.now }
    requires lines { numbers.now.lines ≤ length journal.now }
    ensures { (rule : Rule) → rule.size ≡ numbers.now.replicas
        → (start : F) (replicas : List (ReplicaOf F))
        → result ≡ is_sound rule (view start numbers.now (tables replicas readers.now
        marks.now messages.now journal.now)) }
{
    let size = numbers.replicas;
    let waiting = in_use(messages, numbers.waiting);
    let lines = in_use(journal, usize::from(numbers.lines));
    parties_sound(size, readers, marks, lines) && messages_sound(size, readers, lines, waiting)
}

/// The part of a table that is in use: so many records, which stand first.
fn in_use<T>(table: &[T], used: usize) -> &[T]
    requires { used ≤ length table.now }
    ensures { result.now ≡ take used table.now }
{
    &table[..used]
}

/// Whether every reader and every mark is sound.
fn parties_sound<F: Copy>(
    size: u32,
    readers: &[Reader<F>],
    marks: &[RelayMark],
    lines: &[Operation<F>],
) -> bool
    ensures { (start : F) →
        result ≡ (each_from 0 (reader_sound (of_size size) (register_of start readers.now lines.now))
        readers.now && list_all (mark_within (of_size size)) marks.now) }
{
    readers_sound(size, readers, lines) && marks_sound(size, marks)
}

/// Whether every reader is sound.
fn readers_sound<F: Copy>(size: u32, readers: &[Reader<F>], lines: &[Operation<F>]) -> bool
    ensures { (start : F) →
        result ≡ each_from 0 (reader_sound (of_size size) (register_of start readers.now lines.now))
        readers.now }
{
    readers.iter().enumerate().all(|(number, reader)| reader_sound(size, lines, number, reader))
}

/// Whether the sets of all marks name replicas only.
fn marks_sound(size: u32, marks: &[RelayMark]) -> bool
    ensures { result ≡ list_all (mark_within (of_size size)) marks.now }
{
    marks.iter().all(|mark| mark_within(size, mark))
}

/// Whether every waiting message is sound.
fn messages_sound<F: Copy>(
    size: u32,
    readers: &[Reader<F>],
    lines: &[Operation<F>],
    waiting: &[Message<F>],
) -> bool
    ensures { (start : F) →
        result ≡ list_all (message_sound (of_size size) (register_of start readers.now lines.now))
        waiting.now }
{
    waiting
        .iter()
        .all(|message| message_sound(size, readers, lines, message))
}
