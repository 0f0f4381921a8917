use crate::journal::ReadKind;
use crate::parties::Party;

/// A call of the register.
#[derive(Clone, Copy)]
pub enum Call<F> {
    /// Write the figure.
    Write(F),
    /// This reader reads.
    Read(u32, ReadKind),
    /// Deliver the message at this place among the waiting ones.
    Deliver(u32),
    /// Lose the message at this place.
    Drop(u32),
    /// Add a copy of the message at this place.
    Duplicate(u32),
    /// Stop this party for good.
    Halt(Party),
}
