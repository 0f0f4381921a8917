ghost use Rattle.std.specs.Prelude.{◌≡◌, ◌<◌, ◌||◌, ◌==◌, nat_lt, if◌then◌else◌};
ghost use Rattle.model.specs.State.{index as index_of};
ghost use Rattle.reaction.specs.Reactions.{counts as counts_for, after_message, next_move};
ghost use Rattle.reaction.specs.Reactions.{moved as moved_to, to_reader};

use crate::reaction::{Finish, Move, Post, Reaction};
use model::{Message, MessageKind, OperationKind, Party, Phase, ReadKind, Reader};
use quorum::{QuorumSystem, has, joined};

/// What a reader makes of a message from replica `sender`; true where the message counted.
///
/// It counts for the reader's current operation, in the phase that it is meant for, once for each sender.
// How low the sender's number is, each function here asks: a message is a record of a lent table, so no ghost field says it.
#[tactic(auto, unfolding(model::specs::Records::heard, model::specs::Records::lowered, model::specs::Stamps::rank))]
pub fn hear<F: Copy>(reader: &mut Reader<F>, message: &Message<F>, sender: u32) -> bool
    requires { sender < 32 }
    ensures counted { result ≡ counts_for reader.old message.now sender }
    ensures heard { reader.new ≡ (if result then after_message reader.old message.now sender else reader.old) }
{
    if reader.operation != message.operation || has(reader.replies, sender) {
        return false;
    }
    // Phase and kind are matched together, in one match that changes the reader in place (docs/DECISIONS.md, language forms).
    match (reader.phase, message.kind) {
        (Phase::First, MessageKind::Have) if message.stamp > reader.best_stamp => {
            reader.best_stamp = message.stamp;
            reader.best_figure = message.figure;
            reader.holders = joined(0, sender);
        }
        (Phase::First, MessageKind::Have) if message.stamp == reader.best_stamp => {
            reader.holders = joined(reader.holders, sender);
        }
        (Phase::Relay, MessageKind::Reply) if lowers(reader, message) => {
            reader.best_stamp = message.stamp;
            reader.best_figure = message.figure;
        }
        (Phase::First, MessageKind::Have)
        | (Phase::Second, MessageKind::BackAck)
        | (Phase::Relay, MessageKind::Reply) => {}
        _ => return false,
    }
    reader.replies = joined(reader.replies, sender);
    true
}

/// Whether a relayed reply becomes the reader's best: the first does, and then any with a lower stamp.
fn lowers<F: Copy>(reader: &Reader<F>, message: &Message<F>) -> bool
    ensures { result ≡ (reader.now.replies == 0 || nat_lt message.now.stamp reader.now.best_stamp) }
{
    reader.replies == 0 || message.stamp < reader.best_stamp
}

/// What a reader of a read of this kind does after a message that counted.
pub fn next_move<R: QuorumSystem, F: Copy>(rule: &R, kind: ReadKind, reader: &Reader<F>) -> Move
    ensures { result ≡ next_move (R.QuorumSystem.round rule.now) (R.QuorumSystem.hold rule.now) kind reader.now }
{
    match (kind, reader.phase) {
        (ReadKind::Quick, Phase::First)
            if rule.is_round(reader.replies) && rule.is_hold(reader.holders) => Move::Finish(2),
        (_, Phase::First) if rule.is_round(reader.replies) => Move::PlaceBest,
        (_, Phase::Second) if rule.is_round(reader.replies) => Move::Finish(4),
        (_, Phase::Relay) if rule.is_round(reader.replies) => Move::Finish(3),
        _ => Move::Wait,
    }
}

/// The reader at this place does it.
fn moved<F: Copy>(place: u32, mut reader: Reader<F>, next: Move) -> Reaction<F>
    ensures { result ≡ moved_to place reader next }
{
    match next {
        Move::Wait => Reaction::at_reader(place, reader, None, Post::Nothing),
        Move::PlaceBest => {
            reader.phase = Phase::Second;
            reader.replies = 0;
            let back = Post::All {
                kind: MessageKind::Back,
                operation: reader.operation,
                sender: Party::Reader(place),
                stamp: reader.best_stamp,
                figure: reader.best_figure,
            };
            Reaction::at_reader(place, reader, None, back)
        }
        Move::Finish(exchanges) => {
            let finish = Finish {
                operation: reader.operation,
                stamp: reader.best_stamp,
                figure: reader.best_figure,
                exchanges,
            };
            reader.operation = 0;
            reader.phase = Phase::Idle;
            Reaction::at_reader(place, reader, Some(finish), Post::Nothing)
        }
    }
}

/// What a message does that reaches the reader at this place, in an operation of this kind.
pub fn to_reader<R: QuorumSystem, F: Copy>(
    rule: &R,
    place: u32,
    reader: &Reader<F>,
    kind: OperationKind,
    message: &Message<F>,
) -> Reaction<F>
    requires { index_of message.now.sender < 32 }
    ensures { result ≡ to_reader (R.QuorumSystem.round rule.now) (R.QuorumSystem.hold rule.now) place reader.now kind message.now }
{
    let mut reader = *reader;
    if reader.halted || !hear(&mut reader, message, message.sender.index()) {
        return Reaction::nothing();
    }
    let OperationKind::Read(kind) = kind else {
        return Reaction::nothing();
    };
    let next = next_move(rule, kind, &reader);
    moved(place, reader, next)
}
