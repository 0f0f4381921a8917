/// The writer: the stamp of its last write, its current operation (0 if none) and who has acknowledged that.
// 0 and no `Option`: the rules ask of the writer's operation what they ask of a reader's, and that stands so in a lent table.
#[derive(Clone, Copy, Default)]
pub struct Writer {
    pub halted: bool,
    /// How many writes have started: 0 before the first.
    pub last: u32,
    pub operation: u16,
    /// A mask: bit k stands for replica k.
    pub acknowledgers: u32,
}
