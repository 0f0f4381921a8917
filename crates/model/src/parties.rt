ghost use Rattle.std.specs.Prelude.{◌≡◌};
ghost use Rattle.model.specs.State.{index as index_of};

/// Who sends and receives messages: the writer, or a reader or a replica by its number among its kind, from 0.
#[derive(Clone, Copy, PartialEq, Eq)]
pub enum Party {
    Writer,
    Reader(u32),
    Replica(u32),
}

impl Party {
    /// The number among its kind; the writer's is 0.
    pub fn index(self) -> u32
        ensures { result ≡ index_of self }
    {
        match self {
            Party::Writer => 0,
            Party::Reader(number) | Party::Replica(number) => number,
        }
    }
}
