ghost use Rattle.std.specs.Prelude.{◌≡◌};
ghost use Rattle.model.specs.Answers.{number as number_of};

/// Why a call is declined, with the number under which that is returned, 3 to 11. A declined call has altered nothing.
#[derive(Clone, Copy, PartialEq, Eq, Debug)]
pub enum Refusal {
    /// A table has not the length that it was commissioned with.
    TableLength = 3,
    /// The tables cannot be those of a register in service.
    Unsound = 4,
    /// There is no reader of the number that is to read, or no reader or replica of the number that is to halt.
    NoSuchParty = 5,
    /// The writer or reader that is to start an operation, or the party to halt, is halted.
    Halted = 6,
    /// The writer or reader that is to start an operation has one under way.
    Busy = 7,
    /// Every line of the journal is in use, so no operation can start.
    JournalFull = 8,
    /// More messages would wait after a start, a delivery or a copy than there is room for.
    NoRoom = 9,
    /// No message waits at the place of the one to deliver, drop or duplicate.
    NoMessage = 10,
    /// The message to deliver has a stamp above the writer's last.
    StampAhead = 11,
}

impl Refusal {
    /// The number under which the refusal is returned, 3 to 11.
    pub fn number(self) -> u8
        ensures { result ≡ number_of self }
    {
        self as u8
    }
}

/// What a call answers that is not declined.
#[derive(Clone, Copy)]
pub enum Reply<F> {
    /// A write or a read has started under this number, 1 to 4,096.
    Started(u16),
    /// A delivery has finished an operation.
    Finished {
        /// Its number, 1 to 4,096.
        operation: u16,
        /// The stamp that the write has, or that the read shows: stamps count the writes, and 0 is that of the start.
        stamp: u32,
        figure: F,
        /// How many messages its line counts, up to 65,535, where the count stops.
        sent: u16,
        /// 2 for a write or a quick read of one round, 3 for a relay read, 4 for a read of two rounds.
        exchanges: u8,
    },
    /// The call is done, and neither started nor finished an operation: a delivery, a drop, a copy or a halt.
    Done,
}
