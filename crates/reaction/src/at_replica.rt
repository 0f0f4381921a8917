ghost use Rattle.std.specs.Prelude.{◌≡◌, ◌+◌, ◌*◌, ◌<◌, ◌≤◌, not, length, if◌then◌else◌};
ghost use Rattle.model.specs.State.{index as index_of};
ghost use Rattle.model.specs.Records.{marked};
ghost use Rattle.reaction.specs.Reactions.{offered as after_offer, outdated, to_mark, to_replica};

use crate::reaction::{Post, Reaction, answer, bare_answer};
use model::{Message, MessageKind, Party, RelayMark, Replica};
use quorum::{QuorumSystem, joined};

/// The replica after it was offered what the message carries: it takes that only if the stamp is above its own.
#[tactic(auto, unfolding(model::specs::Stamps::rank))]
pub fn offered<F: Copy>(replica: &Replica<F>, message: &Message<F>) -> Replica<F>
    ensures { result ≡ after_offer replica.now message.now }
{
    if message.stamp > replica.stamp {
        Replica {
            stamp: message.stamp,
            figure: message.figure,
            ..*replica
        }
    } else {
        *replica
    }
}

/// Notes in the mark that replica `sender` relayed for the operation; false where the mark serves a later one.
///
/// A higher operation restarts the mark.
// The same form as `acknowledge` and `hear`: an `Option` of the new mark would be taken apart at once by the one caller.
#[tactic(auto, unfolding(model::specs::Records::marked))]
pub fn relayed(mark: &mut RelayMark, operation: u16, sender: u32) -> bool
    requires { sender < 32 }
    ensures counted { result ≡ not (outdated mark.old operation) }
    ensures changed { mark.new ≡ (if result then marked mark.old operation sender else mark.old) }
{
    if operation < mark.operation {
        return false;
    }
    if operation > mark.operation {
        *mark = RelayMark {
            operation,
            relayers: joined(0, sender),
            replied: false,
        };
    } else {
        mark.relayers = joined(mark.relayers, sender);
    }
    true
}

/// What replica c does about a relayed message that it has taken; `mark`, which stands at `place`, is the one that it keeps
/// for the reader. Once a round set has relayed to it, it replies, once.
// What a replica needs of one message comes from four tables: a struct of it would be taken apart again at once.
pub fn to_mark<R: QuorumSystem, F: Copy>(
    rule: &R,
    c: u32,
    replica: Replica<F>,
    owner: Party,
    place: usize,
    mut mark: RelayMark,
    message: &Message<F>,
) -> Reaction<F>
    requires { index_of message.now.sender < 32 }
    ensures { result ≡ to_mark (R.QuorumSystem.round rule.now) c replica owner message.now place mark }
{
    if !relayed(&mut mark, message.operation, message.sender.index()) {
        return Reaction::at_replica(c, replica, None, Post::Nothing);
    }
    if rule.is_round(mark.relayers) && !mark.replied {
        mark.replied = true;
        let reply = answer(
            owner,
            message,
            MessageKind::Reply,
            replica.stamp,
            replica.figure,
        );
        return Reaction::at_replica(c, replica, Some((place, mark)), reply);
    }
    Reaction::at_replica(c, replica, Some((place, mark)), Post::Nothing)
}

/// What a message does that reaches replica c, in an operation of this owner. Each replica has `width` marks.
// Eight parameters: they come from three lent tables and the numbers, and a struct of them would be taken apart again at once.
pub fn to_replica<R: QuorumSystem, F: Copy>(
    rule: &R,
    start: F,
    c: u32,
    replica: &Replica<F>,
    owner: Party,
    width: u32,
    marks: &[RelayMark],
    message: &Message<F>,
) -> Reaction<F>
    requires sender { index_of message.now.sender < 32 }
    requires place { c * width + index_of owner < length marks.now }
    requires few { length marks.now ≤ 768 }
    ensures { result ≡ to_replica (R.QuorumSystem.round rule.now) start c replica.now owner width marks.now message.now }
{
    if replica.halted {
        return Reaction::nothing();
    }
    match message.kind {
        MessageKind::Put => {
            let ack = bare_answer(owner, message, MessageKind::PutAck, start);
            Reaction::at_replica(c, offered(replica, message), None, ack)
        }
        MessageKind::Back => {
            let ack = bare_answer(owner, message, MessageKind::BackAck, start);
            Reaction::at_replica(c, offered(replica, message), None, ack)
        }
        MessageKind::Query => {
            Reaction::posting(answer(
                owner,
                message,
                MessageKind::Have,
                replica.stamp,
                replica.figure,
            ))
        }
        MessageKind::Fan => Reaction::posting(Post::All {
            kind: MessageKind::Relay,
            operation: message.operation,
            sender: message.receiver,
            stamp: replica.stamp,
            figure: replica.figure,
        }),
        MessageKind::Relay => {
            let place = (c * width + owner.index()) as usize;
            to_mark(
                rule,
                c,
                offered(replica, message),
                owner,
                place,
                marks[place],
                message,
            )
        }
        _ => Reaction::nothing(),
    }
}
