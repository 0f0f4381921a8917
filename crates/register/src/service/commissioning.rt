ghost use Rattle.std.specs.Prelude.{◌≡◌, ◌*◌, true, length};
ghost use Rattle.tables.specs.View.{tables};
ghost use Rattle.register.specs.Commissioning.{new_numbers, parties_fit};
ghost use Rattle.register.specs.Service.{rooms_fit, allowed, Opened, Commissioned};

use super::{Draft, Register, Uncommissioned};
use model::{Message, Operation, Reader, Refusal, RelayMark, Replica, Writer};
use quorum::QuorumSystem;
use tables::Numbers;

impl<R: QuorumSystem, F: Copy> Draft<R, F> {
    /// Fills the tables and puts the register into service.
    ///
    /// For a rule of S replicas and a draft of so many readers the lengths are: replicas S, readers that many, marks S times that,
    /// messages S to 4,096, journal 1 to 4,096. Then everybody works, replicas and readers have the starting figure with stamp 0, and
    /// all sets are empty. The messages and the journal may hold anything, and keep it: none of it waits or is in use.
    ///
    /// Where a table has another length, the draft comes back with `TableLength` (3), and no table is altered.
    pub fn commission(
        self,
        replicas: &mut [Replica<F>],
        readers: &mut [Reader<F>],
        marks: &mut [RelayMark],
        messages: &[Message<F>],
        journal: &[Operation<F>],
    ) -> Result<Register<R, F>, Uncommissioned<R, F>>
        ensures { Commissioned R.QuorumSystem self
            (tables replicas.old readers.old marks.old messages.now journal.now)
            result
            (tables replicas.new readers.new marks.new messages.now journal.now) }
    {
        if !self.accepts(replicas, readers, marks, messages, journal) {
            return Err(Uncommissioned {
                draft: self,
                refusal: Refusal::TableLength,
            });
        }
        let start = self.start;
        // `fill` asks for a clone that cannot fail, which `F: Copy` does not promise
        replicas.fill_with(|| Replica::new(start));
        readers.fill_with(|| Reader::new(start));
        marks.fill(RelayMark::default());
        Ok(self.open(messages.len(), journal.len()))
    }

    /// Whether the tables have the lengths that the register needs.
    fn accepts(
        &self,
        replicas: &[Replica<F>],
        readers: &[Reader<F>],
        marks: &[RelayMark],
        messages: &[Message<F>],
        journal: &[Operation<F>],
    ) -> bool
        ensures { result ≡ allowed self.now
            (tables replicas.now readers.now marks.now messages.now journal.now) }
    {
        parties_fit(self.replicas, self.readers, replicas, readers, marks)
            && self.rooms_fit(messages.len(), journal.len())
    }

    /// Whether the messages and the journal may have these lengths.
    pub(super) fn rooms_fit(&self, messages: usize, journal: usize) -> bool
        ensures { result ≡ rooms_fit self.now messages journal }
    {
        (self.replicas as usize..=4096).contains(&messages) && (1..=4096).contains(&journal)
    }

    /// The register, over tables with so much room.
    pub(super) fn open(self, message_room: usize, journal_room: usize) -> Register<R, F>
        requires { rooms_fit self message_room journal_room ≡ true }
        ensures { Opened self message_room journal_room result }
    {
        let numbers = new_numbers(self.replicas, self.readers, message_room, journal_room);
        Register {
            rule: self.rule,
            start: self.start,
            numbers,
        }
    }
}

/// Whether the tables of the parties have the lengths that so many replicas and readers need.
pub(super) fn parties_fit<F: Copy>(
    size: u32,
    width: u32,
    replicas: &[Replica<F>],
    readers: &[Reader<F>],
    marks: &[RelayMark],
) -> bool
    ensures { result ≡ parties_fit size width (length replicas.now) (length readers.now) (length marks.now) }
{
    replicas.len() == size as usize
        && readers.len() == width as usize
        && marks.len() == size as usize * width as usize
}

/// The numbers of a new register.
#[tactic(auto, unfolding(model::specs::Stamps::no_stamp))]
fn new_numbers(replicas: u32, readers: u32, message_room: usize, journal_room: usize) -> Numbers
    ensures { result ≡ new_numbers replicas readers message_room journal_room }
{
    Numbers {
        writer: Writer::default(),
        replicas,
        readers,
        message_room,
        journal_room,
        waiting: 0,
        lines: 0,
        finished: 0,
    }
}
