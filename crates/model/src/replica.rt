ghost use Rattle.std.specs.Prelude.{◌≡◌};
ghost use Rattle.model.specs.State.{new_replica};

/// A replica: the highest stamp that it was offered, with its figure.
#[derive(Clone, Copy)]
pub struct Replica<F> {
    /// The number of the write that it holds, or 0 for the start.
    pub stamp: u32,
    pub figure: F,
    pub halted: bool,
}

impl<F> Replica<F> {
    /// A new replica, which holds the figure that the register begins with.
    // No `Default`: a new record needs that figure.
    #[tactic(auto, unfolding(crate::specs::Stamps::no_stamp))]
    pub fn new(figure: F) -> Replica<F>
        ensures { result ≡ new_replica figure }
    {
        Replica {
            stamp: 0,
            figure,
            halted: false,
        }
    }
}
