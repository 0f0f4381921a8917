ghost use Rattle.std.specs.Prelude.{◌≡◌};
ghost use Rattle.model.specs.State.{no_line};

use crate::parties::Party;

/// How a read goes.
#[derive(Clone, Copy, PartialEq, Eq)]
pub enum ReadKind {
    /// One round where enough replicas hold what it found, else two.
    Quick,
    /// Always two rounds.
    Settled,
    /// The replicas relay what they hold to each other and then reply.
    Relay,
}

#[derive(Clone, Copy, PartialEq, Eq)]
pub enum OperationKind {
    Write,
    Read(ReadKind),
}

/// A line of the journal. Events count starts and finishes; `finished` and `exchanges` are 0 until it has finished.
// 0 and no `Option`: the journal is a table of the caller's, whose format has 0 for not yet.
#[derive(Clone, Copy)]
pub struct Operation<F> {
    pub kind: OperationKind,
    pub owner: Party,
    pub started: u32,
    pub finished: u32,
    /// 2, 3 or 4 once it has finished, as in `Reply`.
    pub exchanges: u8,
    /// The number of the write that it makes or has shown, or 0 for the start.
    pub stamp: u32,
    pub figure: F,
    /// How many messages were sent for it, up to 65,535.
    pub sent: u16,
}

impl<F> Operation<F> {
    /// What a line may hold that is not in use yet.
    #[tactic(auto, unfolding(crate::specs::Stamps::no_stamp))]
    pub fn blank(figure: F) -> Operation<F>
        ensures { result ≡ no_line figure }
    {
        Operation {
            kind: OperationKind::Write,
            owner: Party::Writer,
            started: 0,
            finished: 0,
            exchanges: 0,
            stamp: 0,
            figure,
            sent: 0,
        }
    }
}
