/// What a register is left with when it is closed.
#[derive(Clone, Copy, PartialEq, Eq, Debug)]
pub struct Tally {
    /// Lines of the journal in use, one for each operation started: 0 to 4,096.
    pub lines: u16,
    /// Finished operations, up to 65,535, where the count stops.
    pub finished: u16,
    /// Waiting messages: 0 to 4,096.
    pub waiting: usize,
}
