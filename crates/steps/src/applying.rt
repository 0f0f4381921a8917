ghost use Rattle.std.specs.Prelude.{◌≡◌, ◌+◌, ◌-◌, ◌≤◌, List, [], ◌++◌, length, take, set, slice_index_or, Ok};
ghost use Rattle.model.specs.State.{stored, no_line};
ghost use Rattle.model.specs.Deliveries.{sending};
ghost use Rattle.model.specs.Steps.{counted, outcome};
ghost use Rattle.model.specs.declared.answers.Reply.{Reply as ModelReply};
ghost use Rattle.model.specs.declared.marks.RelayMark.{RelayMark as MarkRow};
ghost use Rattle.model.specs.declared.messages.Message.{Message as MessageRow};
ghost use Rattle.model.specs.declared.reader.Reader.{Reader as ReaderRow};
ghost use Rattle.model.specs.declared.replica.Replica.{Replica as ReplicaRow};
ghost use Rattle.tables.specs.View.{tables, view, Kept};
ghost use Rattle.steps.specs.Doing.{Does};
ghost use Rattle.reaction.specs.Applied.{changed, sent_by, finish_within, post_within};
ghost use Rattle.steps.specs.Applying.{ended_by, numbers_ended, ending};
ghost use Rattle.steps.specs.Posting.{sent_more};

use crate::tools::{append, send_all};
use model::{Message, Operation, Party, Reply};
use reaction::{Finish, Post};
use tables::Numbers;

/// Writes the changed record, if there is one, whole.
pub fn change<A: Copy>(table: &mut [A], to: Option<(usize, A)>)
    ensures { table.new ≡ changed table.old to }
{
    if let Some((at, row)) = to {
        // An index: what is written through a place that `get_mut` lends stays unproved here.
        if at < table.len() {
            table[at] = row;
        }
    }
}

// What is sent is matched three times, to send it, to count it and to note it in the journal, so that each has its own contract.

/// How many messages are sent.
pub fn post_count<F: Copy>(size: u32, post: Post<F>) -> usize
    ensures { result ≡ length (sent_by size post) }
{
    match post {
        Post::Nothing => 0,
        Post::One(_) => 1,
        Post::All { .. } => size as usize,
    }
}

/// Adds the messages that are sent behind the first `used`.
pub fn send<F: Copy>(messages: &mut [Message<F>], used: usize, size: u32, post: Post<F>)
    requires { used + length (sent_by size post) ≤ length messages.old }
    ensures { messages.new ≡ stored (take used messages.old ++ sent_by size post) messages.old }
{
    match post {
        Post::Nothing => {}
        Post::One(message) => append(messages, used, message),
        Post::All {
            kind,
            operation,
            sender,
            stamp,
            figure,
        } => send_all(
            messages,
            used,
            size,
            Message {
                kind,
                operation,
                sender,
                receiver: Party::Writer,
                stamp,
                figure,
            },
        ),
    }
}

/// Counts messages to the line of their operation (of operation 0, which nothing is sent for, to the first), if it is among those in use.
/// Counts stop at 65,535.
pub fn count_sent<F: Copy>(journal: &mut [Operation<F>], lines: u16, operation: u16, more: u16)
    requires { lines ≤ length journal.old }
    ensures { (start : F) → journal.new ≡ stored (set (take lines journal.old) (operation - 1)
        (sent_more (slice_index_or (take lines journal.old) (operation - 1) (no_line start)) more)) journal.old }
{
    // as the model takes 1 off: 0 stays 0
    let at = usize::from(operation).saturating_sub(1);
    if at < usize::from(lines) {
        add_sent(&mut journal[at], more);
    }
}

// Counts messages to a line.
fn add_sent<F: Copy>(line: &mut Operation<F>, more: u16)
    ensures { line.new ≡ sent_more line.old more }
{
    *line = Operation {
        sent: line.sent.saturating_add(more),
        ..*line
    };
}

/// Finishes an operation, if one finishes: its line tells so from now on. Gives the answer of the delivery.
pub fn finish_operation<F: Copy>(
    numbers: &mut Numbers,
    journal: &mut [Operation<F>],
    finish: Option<Finish<F>>,
) -> Reply<F>
    requires kept { Kept numbers.old }
    requires journal_fits { length journal.old ≡ numbers.old.journal_room }
    requires within { finish_within numbers.old.lines finish }
    ensures numbers { numbers.new ≡ numbers_ended numbers.old finish }
    ensures ends { (start : F) (rs : List (ReplicaRow F)) (ds : List (ReaderRow F)) (ks : List MarkRow) (ms : List (MessageRow F))
        → length ms ≡ numbers.old.message_room
        → Does start
        (ending (view start numbers.old (tables rs ds ks ms journal.old)) finish)
        numbers.old (tables rs ds ks ms journal.old)
        (Ok result)
        numbers.new (tables rs ds ks ms journal.new) }
{
    let Some(finish) = finish else {
        return Reply::Done;
    };
    numbers.finished = numbers.finished.saturating_add(1);
    let event = u32::from(numbers.lines) + u32::from(numbers.finished);
    let sent = end_line(
        &mut journal[usize::from(finish.operation) - 1],
        event,
        finish,
    );
    Reply::Finished {
        operation: finish.operation,
        stamp: finish.stamp,
        figure: finish.figure,
        sent,
        exchanges: finish.exchanges,
    }
}

// Writes into a line that its operation has finished, at this event. Gives its count of messages.
fn end_line<F: Copy>(line: &mut Operation<F>, event: u32, finish: Finish<F>) -> u16
    ensures sent { result ≡ line.old.sent }
    ensures ended { line.new ≡ ended_by line.old event finish }
{
    *line = Operation {
        finished: event,
        exchanges: finish.exchanges,
        stamp: finish.stamp,
        figure: finish.figure,
        ..*line
    };
    line.sent
}

/// Sends messages: they join those that wait, and are counted to the line of their operation.
pub fn post<F: Copy>(
    numbers: &mut Numbers,
    messages: &mut [Message<F>],
    journal: &mut [Operation<F>],
    post: Post<F>,
)
    requires kept { Kept numbers.old }
    requires messages_fit { length messages.old ≡ numbers.old.message_room }
    requires journal_fits { length journal.old ≡ numbers.old.journal_room }
    requires room { numbers.old.waiting + length (sent_by numbers.old.replicas post) ≤ numbers.old.message_room }
    requires within { post_within numbers.old.lines post }
    ensures { (start : F) (rs : List (ReplicaRow F)) (ds : List (ReaderRow F)) (ks : List MarkRow)
        → Does start
        (outcome [] (sending (view start numbers.old (tables rs ds ks messages.old journal.old)) (sent_by numbers.old.replicas post)))
        numbers.old (tables rs ds ks messages.old journal.old)
        (Ok ModelReply.Done)
        numbers.new (tables rs ds ks messages.new journal.new) }
{
    let size = numbers.replicas;
    send(messages, numbers.waiting, size, post);
    count_post(journal, numbers.lines, size, post);
    numbers.waiting += post_count(size, post);
}

// Counts the messages that are sent to the line of their operation.
fn count_post<F: Copy>(journal: &mut [Operation<F>], lines: u16, size: u32, post: Post<F>)
    requires fits { lines ≤ length journal.old }
    requires some { 1 ≤ size }
    requires few { size ≤ 24 }
    requires within { post_within lines post }
    ensures { (start : F) → journal.new ≡ stored (counted start (take lines journal.old) (sent_by size post)) journal.old }
{
    match post {
        Post::Nothing => {}
        Post::One(message) => count_sent(journal, lines, message.operation, 1),
        Post::All { operation, .. } => count_sent(journal, lines, operation, size as u16),
    }
}
