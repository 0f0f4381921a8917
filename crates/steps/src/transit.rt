ghost use Rattle.std.specs.Prelude.{◌≡◌, List, length};
ghost use Rattle.quorum.specs.Sets.{Rule as QuorumRule};
ghost use Rattle.model.specs.declared.calls.Call.{Call as ModelCall};
ghost use Rattle.model.specs.declared.reader.Reader.{Reader as ReaderRow};
ghost use Rattle.model.specs.declared.replica.Replica.{Replica as ReplicaRow};
ghost use Rattle.model.specs.declared.marks.RelayMark.{RelayMark as MarkRow};
ghost use Rattle.model.specs.declared.journal.Operation.{Operation as JournalRow};
ghost use Rattle.tables.specs.View.{tables, view, Kept};
ghost use Rattle.steps.specs.Doing.{judged, Does};

use crate::tools::{append, place_of, remove_at};
use model::{Message, Refusal, Reply};
use tables::Numbers;

/// Takes the message at a place out, and loses it.
pub fn drop_message<F: Copy>(
    numbers: &mut Numbers,
    messages: &mut [Message<F>],
    place: u32,
) -> Result<Reply<F>, Refusal>
    requires kept { Kept numbers.old }
    requires messages_fit { length messages.old ≡ numbers.old.message_room }
    ensures { (start : F) (rule : QuorumRule) (rs : List (ReplicaRow F)) (ds : List (ReaderRow F)) (ks : List MarkRow) (ls : List (JournalRow F))
        → length ls ≡ numbers.old.journal_room
        → Does start
        (judged rule (view start numbers.old (tables rs ds ks messages.old ls)) (ModelCall.Drop place))
        numbers.old (tables rs ds ks messages.old ls)
        result
        numbers.new (tables rs ds ks messages.new ls) }
{
    let at = place_of(numbers, place)?;
    remove_at(messages, numbers.waiting, at);
    numbers.waiting -= 1;
    Ok(Reply::Done)
}

/// Adds a copy of the message at a place.
pub fn duplicate_message<F: Copy>(
    numbers: &mut Numbers,
    messages: &mut [Message<F>],
    place: u32,
) -> Result<Reply<F>, Refusal>
    requires kept { Kept numbers.old }
    requires messages_fit { length messages.old ≡ numbers.old.message_room }
    ensures { (start : F) (rule : QuorumRule) (rs : List (ReplicaRow F)) (ds : List (ReaderRow F)) (ks : List MarkRow) (ls : List (JournalRow F))
        → length ls ≡ numbers.old.journal_room
        → Does start
        (judged rule (view start numbers.old (tables rs ds ks messages.old ls)) (ModelCall.Duplicate place))
        numbers.old (tables rs ds ks messages.old ls)
        result
        numbers.new (tables rs ds ks messages.new ls) }
{
    let at = place_of(numbers, place)?;
    if numbers.waiting >= numbers.message_room {
        return Err(Refusal::NoRoom);
    }
    let message = messages[at];
    append(messages, numbers.waiting, message);
    numbers.waiting += 1;
    Ok(Reply::Done)
}
