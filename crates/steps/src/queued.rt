ghost use Rattle.std.specs.Prelude.{◌≡◌, ◌+◌, ◌<◌, ◌≤◌, true, length, Ok};
ghost use Rattle.model.specs.Sound.{sound as is_sound};
ghost use Rattle.model.specs.declared.calls.Call.{Call as ModelCall};
ghost use Rattle.tables.specs.View.{tables, view, Kept, Fitting, rule_for};
ghost use Rattle.steps.specs.Doing.{judged, Advances};
ghost use Rattle.steps.specs.Planning.{Plan};
ghost use Rattle.steps.specs.Queueing.{window};

use crate::delivering::{apply, plan_delivery};
use crate::queue::take_out;
use crate::stepping::step;
use model::{Call, Message, Operation, Reader, Refusal, RelayMark, Replica, Reply};
use quorum::QuorumSystem;
use reaction::Reaction;
use tables::Numbers;

/// Any call on tables that are known to be sound, where the table of messages begins at `head` of a buffer. A delivery may move
/// where it begins.
pub fn step_queued<R: QuorumSystem, F: Copy>(
    rule: &R,
    start: F,
    numbers: &mut Numbers,
    replicas: &mut [Replica<F>],
    readers: &mut [Reader<F>],
    marks: &mut [RelayMark],
    buffer: &mut [Message<F>],
    head: &mut usize,
    journal: &mut [Operation<F>],
    call: Call<F>,
) -> Result<Reply<F>, Refusal>
    requires kept { Kept numbers.old }
    requires within { head.old + numbers.old.message_room ≤ length buffer.old }
    requires slack { numbers.old.message_room < length buffer.old }
    requires fits { Fitting numbers.old (tables replicas.old readers.old marks.old (window head.old numbers.old.message_room buffer.old) journal.old) }
    requires sound { is_sound (rule_for R.QuorumSystem rule.now numbers.old.replicas) (view start numbers.old (tables replicas.old readers.old marks.old (window head.old numbers.old.message_room buffer.old) journal.old)) ≡ true }
    ensures within { head.new + numbers.old.message_room ≤ length buffer.old }
    ensures advances { Advances start
        (judged (rule_for R.QuorumSystem rule.now numbers.old.replicas) (view start numbers.old (tables replicas.old readers.old marks.old (window head.old numbers.old.message_room buffer.old) journal.old)) (call))
        numbers.old result numbers.new (tables replicas.new readers.new marks.new (window head.new numbers.old.message_room buffer.new) journal.new) }
{
    match call {
        Call::Deliver(place) => deliver_queued(
            rule, start, numbers, replicas, readers, marks, buffer, head, journal, place,
        ),
        other => {
            let room = numbers.message_room;
            let messages = &mut buffer[*head..*head + room];
            step(
                rule, start, numbers, replicas, readers, marks, messages, journal, other,
            )
        }
    }
}

// Delivers the message at a place. It is beside `deliver_message` since it promises less: nothing of places not in use.
fn deliver_queued<R: QuorumSystem, F: Copy>(
    rule: &R,
    start: F,
    numbers: &mut Numbers,
    replicas: &mut [Replica<F>],
    readers: &mut [Reader<F>],
    marks: &mut [RelayMark],
    buffer: &mut [Message<F>],
    head: &mut usize,
    journal: &mut [Operation<F>],
    place: u32,
) -> Result<Reply<F>, Refusal>
    requires kept { Kept numbers.old }
    requires within { head.old + numbers.old.message_room ≤ length buffer.old }
    requires slack { numbers.old.message_room < length buffer.old }
    requires fits { Fitting numbers.old (tables replicas.old readers.old marks.old (window head.old numbers.old.message_room buffer.old) journal.old) }
    requires sound { is_sound (rule_for R.QuorumSystem rule.now numbers.old.replicas) (view start numbers.old (tables replicas.old readers.old marks.old (window head.old numbers.old.message_room buffer.old) journal.old)) ≡ true }
    ensures within { head.new + numbers.old.message_room ≤ length buffer.old }
    ensures advances { Advances start
        (judged (rule_for R.QuorumSystem rule.now numbers.old.replicas) (view start numbers.old (tables replicas.old readers.old marks.old (window head.old numbers.old.message_room buffer.old) journal.old)) (ModelCall.Deliver place))
        numbers.old result numbers.new (tables replicas.new readers.new marks.new (window head.new numbers.old.message_room buffer.new) journal.new) }
{
    let room = numbers.message_room;
    let reaction = plan_queued(
        rule, start, numbers, replicas, readers, marks, buffer, *head, journal, place,
    )?;
    *head = take_out(buffer, *head, room, numbers.waiting, place as usize);
    numbers.waiting -= 1;
    let messages = &mut buffer[*head..*head + room];
    Ok(apply(
        numbers, replicas, readers, marks, messages, journal, reaction,
    ))
}

// What the delivery will do, or why it is declined. A call of its own lends the part of the buffer that is read.
fn plan_queued<R: QuorumSystem, F: Copy>(
    rule: &R,
    start: F,
    numbers: &Numbers,
    replicas: &[Replica<F>],
    readers: &[Reader<F>],
    marks: &[RelayMark],
    buffer: &[Message<F>],
    head: usize,
    journal: &[Operation<F>],
    place: u32,
) -> Result<Reaction<F>, Refusal>
    requires kept { Kept numbers.now }
    requires within { head + numbers.now.message_room ≤ length buffer.now }
    requires fits { Fitting numbers.now (tables replicas.now readers.now marks.now (window head numbers.now.message_room buffer.now) journal.now) }
    requires sound { is_sound (rule_for R.QuorumSystem rule.now numbers.now.replicas) (view start numbers.now (tables replicas.now readers.now marks.now (window head numbers.now.message_room buffer.now) journal.now)) ≡ true }
    ensures { Plan (rule_for R.QuorumSystem rule.now numbers.now.replicas) start numbers.now
        (tables replicas.now readers.now marks.now (window head numbers.now.message_room buffer.now) journal.now) place result }
{
    let messages = &buffer[head..head + numbers.message_room];
    plan_delivery(
        rule, start, numbers, replicas, readers, marks, messages, journal, place,
    )
}
