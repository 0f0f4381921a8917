ghost use Rattle.std.specs.Prelude.{◌≡◌, ◌<◌, if◌then◌else◌};
ghost use Rattle.model.specs.State.{index as index_of};
ghost use Rattle.model.specs.Records.{acknowledged};
ghost use Rattle.reaction.specs.Reactions.{acknowledges, to_writer};

use crate::reaction::{Finish, Reaction};
use model::{Message, MessageKind, Operation, Writer};
use quorum::{QuorumSystem, joined};

/// What the writer makes of a message from replica `sender`; true where the message counted.
///
/// An acknowledgement counts for the writer's current operation.
pub fn acknowledge<F: Copy>(writer: &mut Writer, message: &Message<F>, sender: u32) -> bool
    requires { sender < 32 }
    ensures counted { result ≡ acknowledges writer.old message.now }
    ensures joined { writer.new ≡ (if result then acknowledged writer.old sender else writer.old) }
{
    match (writer.operation, message.kind) {
        (current, MessageKind::PutAck) if current == message.operation => {
            writer.acknowledgers = joined(writer.acknowledgers, sender);
            true
        }
        _ => false,
    }
}

/// What a message does that reaches the writer, in the operation of this line. It is an acknowledgement: the writer is sent nothing else.
pub fn to_writer<R: QuorumSystem, F: Copy>(
    rule: &R,
    mut writer: Writer,
    line: &Operation<F>,
    message: &Message<F>,
) -> Reaction<F>
    requires { index_of message.now.sender < 32 }
    ensures { result ≡ to_writer (R.QuorumSystem.round rule.now) writer line.now message.now }
{
    if writer.halted || !acknowledge(&mut writer, message, message.sender.index()) {
        return Reaction::nothing();
    }
    if !rule.is_round(writer.acknowledgers) {
        return Reaction::at_writer(writer, None);
    }
    writer.operation = 0;
    let finish = Finish {
        operation: message.operation,
        stamp: line.stamp,
        figure: line.figure,
        exchanges: 2,
    };
    Reaction::at_writer(writer, Some(finish))
}
