ghost use Rattle.std.specs.Prelude.{◌≡◌};
ghost use Rattle.first_tide.specs.Lent.{blank};

use figure::{FigureKind, Tide};
use model::{Message, Operation, Reader, RelayMark, Replica};

/// The five tables of a register for three replicas and one reader, with room for 16 messages and 8 operations.
#[derive(Drop)]
pub struct Memory {
    pub replicas: [Replica<Tide>; 3],
    pub readers: [Reader<Tide>; 1],
    pub marks: [RelayMark; 3],
    pub messages: [Message<Tide>; 16],
    pub journal: [Operation<Tide>; 8],
}

impl Memory {
    /// Tables with nothing in them yet. Commissioning fills what has to be filled; the rest may hold anything.
    pub fn blank() -> Memory
        ensures { result ≡ blank }
    {
        let tide = Tide::start();
        Memory {
            replicas: [Replica::new(tide); 3],
            readers: [Reader::new(tide)],
            marks: [RelayMark::default(); 3],
            messages: [Message::blank(tide); 16],
            journal: [Operation::blank(tide); 8],
        }
    }
}
