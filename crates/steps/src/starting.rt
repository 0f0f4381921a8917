ghost use Rattle.std.specs.Prelude.{◌≡◌, ◌+◌, ◌<◌, ◌≤◌, List, [], ◌∷◌, ◌++◌, length, take, OnOk};
ghost use Rattle.std.specs.Result.{result_err};
ghost use Rattle.quorum.specs.Sets.{Rule as QuorumRule};
ghost use Rattle.model.specs.State.{stored};
ghost use Rattle.model.specs.Steps.{first_of, opening_phase, opening_message};
ghost use Rattle.model.specs.Deliveries.{carried, to_all};
ghost use Rattle.model.specs.declared.calls.Call.{Call as ModelCall};
ghost use Rattle.model.specs.declared.reader.Reader.{Reader as ReaderRow};
ghost use Rattle.model.specs.declared.replica.Replica.{Replica as ReplicaRow};
ghost use Rattle.model.specs.declared.marks.RelayMark.{RelayMark as MarkRow};
ghost use Rattle.tables.specs.View.{tables, view, Kept};
ghost use Rattle.steps.specs.Starting.{started, opened_line, ReadClear};
ghost use Rattle.steps.specs.Doing.{judged, Does};
ghost use Rattle.steps.specs.Refusing.{rest_tests, room_tests, write_tests, read_tests};

use crate::tools::{append, send_all};
use model::{
    Message, MessageKind, Operation, OperationKind, Party, Phase, ReadKind, Reader, Refusal, Reply,
    Writer,
};
use tables::Numbers;

/// Starts a write.
pub fn start_write<F: Copy>(
    numbers: &mut Numbers,
    messages: &mut [Message<F>],
    journal: &mut [Operation<F>],
    figure: F,
) -> Result<Reply<F>, Refusal>
    requires kept { Kept numbers.old }
    requires messages_fit { length messages.old ≡ numbers.old.message_room }
    requires journal_fits { length journal.old ≡ numbers.old.journal_room }
    ensures { (start : F) (rule : QuorumRule) (rs : List (ReplicaRow F)) (ds : List (ReaderRow F)) (ks : List MarkRow)
        → rule.size ≡ numbers.old.replicas
        → Does start
        (judged rule (view start numbers.old (tables rs ds ks messages.old journal.old)) (ModelCall.Write figure))
        numbers.old (tables rs ds ks messages.old journal.old)
        result
        numbers.new (tables rs ds ks messages.new journal.new) }
{
    may_write(numbers)?;
    let operation = numbers.lines + 1;
    let stamp = numbers.writer.last + 1;
    let put = Message {
        kind: MessageKind::Put,
        operation,
        sender: Party::Writer,
        receiver: Party::Writer,
        stamp,
        figure,
    };
    open(numbers, messages, journal, OperationKind::Write, put);
    numbers.writer = Writer {
        last: stamp,
        operation,
        acknowledgers: 0,
        ..numbers.writer
    };
    Ok(Reply::Started(operation))
}

/// Starts a read.
pub fn start_read<F: Copy>(
    start: F,
    numbers: &mut Numbers,
    readers: &mut [Reader<F>],
    messages: &mut [Message<F>],
    journal: &mut [Operation<F>],
    reader: u32,
    kind: ReadKind,
) -> Result<Reply<F>, Refusal>
    requires kept { Kept numbers.old }
    requires messages_fit { length messages.old ≡ numbers.old.message_room }
    requires journal_fits { length journal.old ≡ numbers.old.journal_room }
    ensures { (rule : QuorumRule) (rs : List (ReplicaRow F)) (ks : List MarkRow)
        → rule.size ≡ numbers.old.replicas
        → Does start
        (judged rule (view start numbers.old (tables rs readers.old ks messages.old journal.old)) (ModelCall.Read reader kind))
        numbers.old (tables rs readers.old ks messages.old journal.old)
        result
        numbers.new (tables rs readers.new ks messages.new journal.new) }
{
    may_read(start, numbers, readers, reader)?;
    let operation = numbers.lines + 1;
    let row = readers[reader as usize];
    readers[reader as usize] = Reader {
        operation,
        phase: opening_phase(kind),
        replies: 0,
        best_stamp: 0,
        best_figure: start,
        holders: 0,
        ..row
    };
    let request = Message {
        kind: opening_message(kind),
        operation,
        sender: Party::Reader(reader),
        receiver: Party::Writer,
        stamp: 0,
        figure: start,
    };
    open(
        numbers,
        messages,
        journal,
        OperationKind::Read(kind),
        request,
    );
    Ok(Reply::Started(operation))
}

// Whether a read may start, or why it is refused.
fn may_read<F: Copy>(
    start: F,
    numbers: &Numbers,
    readers: &[Reader<F>],
    reader: u32,
) -> Result<(), Refusal>
    requires { Kept numbers.now }
    ensures verdict { result_err result ≡ first_of (read_tests start numbers.now readers.now reader) }
    ensures clear { OnOk result (ReadClear numbers.now readers.now reader) }
{
    let row = readers.get(reader as usize).ok_or(Refusal::NoSuchParty)?;
    at_rest(row.halted, row.operation)?;
    has_room(numbers)
}

// Whether a party that is halted or not, with this operation under way, may start one.
fn at_rest(halted: bool, operation: u16) -> Result<(), Refusal>
    ensures { result_err result ≡ first_of (rest_tests halted operation) }
{
    if halted {
        return Err(Refusal::Halted);
    }
    if operation != 0 {
        return Err(Refusal::Busy);
    }
    Ok(())
}

// Whether there is room for the line of an operation and for its first messages.
fn has_room(numbers: &Numbers) -> Result<(), Refusal>
    requires { Kept numbers.now }
    ensures { result_err result ≡ first_of (room_tests numbers.now) }
{
    if usize::from(numbers.lines) >= numbers.journal_room {
        return Err(Refusal::JournalFull);
    }
    if numbers.waiting + numbers.replicas as usize > numbers.message_room {
        return Err(Refusal::NoRoom);
    }
    Ok(())
}

// The phase in which a read starts.
fn opening_phase(kind: ReadKind) -> Phase
    ensures { result ≡ opening_phase kind }
{
    match kind {
        ReadKind::Quick | ReadKind::Settled => Phase::First,
        ReadKind::Relay => Phase::Relay,
    }
}

// What a read asks every replica first.
fn opening_message(kind: ReadKind) -> MessageKind
    ensures { result ≡ opening_message kind }
{
    match kind {
        ReadKind::Quick | ReadKind::Settled => MessageKind::Query,
        ReadKind::Relay => MessageKind::Fan,
    }
}

// Whether a write may start, or why it is refused.
fn may_write(numbers: &Numbers) -> Result<(), Refusal>
    requires { Kept numbers.now }
    ensures { result_err result ≡ first_of (write_tests numbers.now) }
{
    at_rest(numbers.writer.halted, numbers.writer.operation)?;
    has_room(numbers)
}

// Adds the line of an operation, whose owner sends this message to every replica.
fn open<F: Copy>(
    numbers: &mut Numbers,
    messages: &mut [Message<F>],
    journal: &mut [Operation<F>],
    kind: OperationKind,
    message: Message<F>,
)
    requires kept { Kept numbers.old }
    requires messages_fit { numbers.old.waiting + numbers.old.replicas ≤ length messages.old }
    requires journal_fits { numbers.old.lines < length journal.old }
    ensures numbers { numbers.new ≡ started numbers.old numbers.old.writer }
    ensures messages { messages.new ≡ stored (take numbers.old.waiting messages.old
        ++ to_all numbers.old.replicas message.kind message.operation message.sender (carried message)) messages.old }
    ensures journal { journal.new ≡ stored (take numbers.old.lines journal.old
        ++ opened_line numbers.old kind message ∷ []) journal.old }
{
    let line = Operation {
        kind,
        owner: message.sender,
        started: u32::from(numbers.lines) + 1 + u32::from(numbers.finished),
        finished: 0,
        exchanges: 0,
        stamp: message.stamp,
        figure: message.figure,
        sent: numbers.replicas as u16,
    };
    append(journal, usize::from(numbers.lines), line);
    send_all(messages, numbers.waiting, numbers.replicas, message);
    numbers.waiting += numbers.replicas as usize;
    numbers.lines += 1;
}
