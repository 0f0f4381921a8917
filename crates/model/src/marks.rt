/// What a replica keeps for one reader: the latest read that was relayed to it, who relayed, and whether it has replied.
// Operation 0 and no `Option`: the marks are a table of the caller's, whose format has 0 for no read yet.
#[derive(Clone, Copy, Default)]
pub struct RelayMark {
    pub operation: u16,
    /// A mask: bit k stands for replica k.
    pub relayers: u32,
    pub replied: bool,
}
