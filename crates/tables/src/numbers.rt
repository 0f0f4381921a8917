use model::Writer;

/// The register's own state beside the tables: the writer, how long the tables are, and how much of them is in use.
// What holds of it, `Kept`, stands in contracts and is no ghost field: then each definition that makes numbers anew, as a step
// does, would carry a proof, in specs/, where a reader is to read values.
#[derive(Clone, Copy)]
pub struct Numbers {
    pub writer: Writer,
    pub replicas: u32,
    pub readers: u32,
    pub message_room: usize,
    pub journal_room: usize,
    /// How many messages wait: they stand first in their table.
    pub waiting: usize,
    /// How many lines of the journal are in use: they stand first in their table.
    pub lines: u16,
    /// How many operations are finished, up to 65,535.
    pub finished: u16,
}
