ghost use Rattle.std.specs.Prelude.{◌≡◌};
ghost use Rattle.model.specs.State.{new_reader};

/// What a reader waits for.
#[derive(Clone, Copy, PartialEq, Eq)]
pub enum Phase {
    /// Nothing.
    Idle,
    /// What the replicas hold.
    First,
    /// That the replicas have taken what it found.
    Second,
    /// What the replicas hold after relaying it among themselves.
    Relay,
}

/// A reader: its current operation (0 if none), who has replied, the best it found and who holds that.
// 0 and no `Option`: the readers are a table of the caller's, whose format has 0 for none. The check of soundness judges phase and operation.
#[derive(Clone, Copy)]
pub struct Reader<F> {
    pub halted: bool,
    pub operation: u16,
    pub phase: Phase,
    /// A mask: bit k stands for replica k.
    pub replies: u32,
    /// The number of the write that it found, or 0 for the start.
    pub best_stamp: u32,
    pub best_figure: F,
    /// A mask: bit k stands for replica k.
    pub holders: u32,
}

impl<F> Reader<F> {
    /// A new reader, idle, which has found nothing but the figure that the register begins with.
    // No `Default`: a new record needs that figure.
    #[tactic(auto, unfolding(crate::specs::Stamps::no_stamp))]
    pub fn new(figure: F) -> Reader<F>
        ensures { result ≡ new_reader figure }
    {
        Reader {
            halted: false,
            operation: 0,
            phase: Phase::Idle,
            replies: 0,
            best_stamp: 0,
            best_figure: figure,
            holders: 0,
        }
    }
}
