ghost use Rattle.std.specs.Prelude.{◌≡◌};
ghost use Rattle.model.specs.State.{no_message};

use crate::parties::Party;

/// What a message is for. Each request stands before its answer.
#[derive(Clone, Copy, PartialEq, Eq)]
pub enum MessageKind {
    /// The writer's figure, for a replica to take.
    Put,
    PutAck,
    /// What do you hold?
    Query,
    Have,
    /// What a reader found, for a replica to take.
    Back,
    BackAck,
    /// Relay what you hold to every replica.
    Fan,
    Relay,
    /// What a replica holds once enough have relayed to it.
    Reply,
}

/// A message in flight, sent for an operation.
// No `Option` of stamp and figure: the tables' format has 0 and the starting figure where a kind of message has no use for them.
#[derive(Clone, Copy)]
pub struct Message<F> {
    pub kind: MessageKind,
    /// The number of its line in the journal, from 1.
    pub operation: u16,
    pub sender: Party,
    pub receiver: Party,
    /// The number of the write whose figure it carries, or 0 for the start.
    pub stamp: u32,
    pub figure: F,
}

impl<F> Message<F> {
    /// What a place may hold in which no message has waited yet.
    #[tactic(auto, unfolding(crate::specs::Stamps::no_stamp))]
    pub fn blank(figure: F) -> Message<F>
        ensures { result ≡ no_message figure }
    {
        Message {
            kind: MessageKind::Query,
            operation: 0,
            sender: Party::Writer,
            receiver: Party::Writer,
            stamp: 0,
            figure,
        }
    }
}
