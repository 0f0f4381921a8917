ghost use Rattle.std.specs.Prelude.{◌≡◌, MatchResult};
ghost use Rattle.model.specs.declared.calls.Call.{Call as ModelCall};
ghost use Rattle.tables.specs.View.{tables};
ghost use Rattle.register.specs.Calls.{fits, meaning, Checked, Declines, Plays};

use super::Register;
use super::commissioning::parties_fit;
use model::{
    Call, Message, Operation, Party, ReadKind, Reader, Refusal, RelayMark, Replica, Reply,
};
use quorum::QuorumSystem;
use steps::{
    deliver_message, drop_message, duplicate_message, halt_party, start_read, start_write, step,
};
use tables::tables_sound;

impl<R: QuorumSystem, F: Copy> Register<R, F> {
    /// Starts a write of the figure, under the next stamp: the writer sends both to every replica.
    ///
    /// Answers `Started` with the operation's number, 1 to 4,096. Refusals, in this order: `TableLength`, `Unsound`, `Halted`, `Busy`,
    /// `JournalFull`, `NoRoom` for a message to each replica.
    pub fn write(
        &mut self,
        replicas: &[Replica<F>],
        readers: &[Reader<F>],
        marks: &[RelayMark],
        messages: &mut [Message<F>],
        journal: &mut [Operation<F>],
        figure: F,
    ) -> Result<Reply<F>, Refusal>
        ensures { Plays R.QuorumSystem (ModelCall.Write figure)
            self.old (tables replicas.now readers.now marks.now messages.old journal.old)
            result
            self.new (tables replicas.now readers.now marks.now messages.new journal.new) }
    {
        self.check(replicas, readers, marks, messages, journal)?;
        start_write(&mut self.numbers, messages, journal, figure)
    }

    /// Starts a read of this kind by a reader, which asks every replica.
    ///
    /// Answers `Started` with the operation's number, 1 to 4,096. Refusals, in this order: `TableLength`, `Unsound`, `NoSuchParty`,
    /// `Halted`, `Busy`, `JournalFull`, `NoRoom` for a message to each replica.
    pub fn read(
        &mut self,
        replicas: &[Replica<F>],
        readers: &mut [Reader<F>],
        marks: &[RelayMark],
        messages: &mut [Message<F>],
        journal: &mut [Operation<F>],
        reader: u32,
        kind: ReadKind,
    ) -> Result<Reply<F>, Refusal>
        ensures { Plays R.QuorumSystem (ModelCall.Read reader kind)
            self.old (tables replicas.now readers.old marks.now messages.old journal.old)
            result
            self.new (tables replicas.now readers.new marks.now messages.new journal.new) }
    {
        self.check(replicas, readers, marks, messages, journal)?;
        start_read(
            self.start,
            &mut self.numbers,
            readers,
            messages,
            journal,
            reader,
            kind,
        )
    }

    /// Delivers the message at a place among the waiting ones: it is taken out, and has its effect unless its receiver is halted.
    ///
    /// Answers `Finished` where that finishes an operation, and else `Done`. Refusals, in this order: `TableLength`, `Unsound`,
    /// `NoMessage`, `StampAhead`, `NoRoom` for what is sent, the place of the message taken out counted as free.
    pub fn deliver(
        &mut self,
        replicas: &mut [Replica<F>],
        readers: &mut [Reader<F>],
        marks: &mut [RelayMark],
        messages: &mut [Message<F>],
        journal: &mut [Operation<F>],
        place: u32,
    ) -> Result<Reply<F>, Refusal>
        ensures { Plays R.QuorumSystem (ModelCall.Deliver place)
            self.old (tables replicas.old readers.old marks.old messages.old journal.old)
            result
            self.new (tables replicas.new readers.new marks.new messages.new journal.new) }
    {
        self.check(replicas, readers, marks, messages, journal)?;
        deliver_message(
            &self.rule,
            self.start,
            &mut self.numbers,
            replicas,
            readers,
            marks,
            messages,
            journal,
            place,
        )
    }

    /// Loses the message at a place among the waiting ones.
    ///
    /// Answers `Done`. Refusals, in this order: `TableLength`, `Unsound`, `NoMessage`.
    pub fn drop(
        &mut self,
        replicas: &[Replica<F>],
        readers: &[Reader<F>],
        marks: &[RelayMark],
        messages: &mut [Message<F>],
        journal: &[Operation<F>],
        place: u32,
    ) -> Result<Reply<F>, Refusal>
        ensures { Plays R.QuorumSystem (ModelCall.Drop place)
            self.old (tables replicas.now readers.now marks.now messages.old journal.now)
            result
            self.new (tables replicas.now readers.now marks.now messages.new journal.now) }
    {
        self.check(replicas, readers, marks, messages, journal)?;
        drop_message(&mut self.numbers, messages, place)
    }

    /// Adds a copy of the message at a place behind the waiting ones. The copy is not counted as sent.
    ///
    /// Answers `Done`. Refusals, in this order: `TableLength`, `Unsound`, `NoMessage`, `NoRoom` for the copy.
    pub fn duplicate(
        &mut self,
        replicas: &[Replica<F>],
        readers: &[Reader<F>],
        marks: &[RelayMark],
        messages: &mut [Message<F>],
        journal: &[Operation<F>],
        place: u32,
    ) -> Result<Reply<F>, Refusal>
        ensures { Plays R.QuorumSystem (ModelCall.Duplicate place)
            self.old (tables replicas.now readers.now marks.now messages.old journal.now)
            result
            self.new (tables replicas.now readers.now marks.now messages.new journal.now) }
    {
        self.check(replicas, readers, marks, messages, journal)?;
        duplicate_message(&mut self.numbers, messages, place)
    }

    /// Stops a party for good.
    ///
    /// Answers `Done`. Refusals, in this order: `TableLength`, `Unsound`, `NoSuchParty`, `Halted`.
    pub fn halt(
        &mut self,
        replicas: &mut [Replica<F>],
        readers: &mut [Reader<F>],
        marks: &[RelayMark],
        messages: &[Message<F>],
        journal: &[Operation<F>],
        party: Party,
    ) -> Result<Reply<F>, Refusal>
        ensures { Plays R.QuorumSystem (ModelCall.Halt party)
            self.old (tables replicas.old readers.old marks.now messages.now journal.now)
            result
            self.new (tables replicas.new readers.new marks.now messages.now journal.now) }
    {
        self.check(replicas, readers, marks, messages, journal)?;
        halt_party(&mut self.numbers, replicas, readers, party)
    }

    /// Does any of the six calls: the answer, the refusals and what is left are as with the call itself.
    pub fn call(
        &mut self,
        replicas: &mut [Replica<F>],
        readers: &mut [Reader<F>],
        marks: &mut [RelayMark],
        messages: &mut [Message<F>],
        journal: &mut [Operation<F>],
        call: Call<F>,
    ) -> Result<Reply<F>, Refusal>
        ensures { Plays R.QuorumSystem call
            self.old (tables replicas.old readers.old marks.old messages.old journal.old)
            result
            self.new (tables replicas.new readers.new marks.new messages.new journal.new) }
    {
        self.check(replicas, readers, marks, messages, journal)?;
        step(
            &self.rule,
            self.start,
            &mut self.numbers,
            replicas,
            readers,
            marks,
            messages,
            journal,
            call,
        )
    }

    // Whether calls may be done on these tables: they have their lengths, and are sound.
    fn check(
        &self,
        replicas: &[Replica<F>],
        readers: &[Reader<F>],
        marks: &[RelayMark],
        messages: &[Message<F>],
        journal: &[Operation<F>],
    ) -> Result<(), Refusal>
        ensures { MatchResult result
            (λ _. Checked (meaning R.QuorumSystem self.now) self.now.start self.now.numbers (tables replicas.now readers.now marks.now messages.now journal.now))
            (Declines (meaning R.QuorumSystem self.now) self.now.start self.now.numbers (tables replicas.now readers.now marks.now messages.now journal.now)) }
    {
        if !self.lengths_fit(replicas, readers, marks, messages, journal) {
            return Err(Refusal::TableLength);
        }
        if !tables_sound(&self.numbers, readers, marks, messages, journal) {
            return Err(Refusal::Unsound);
        }
        Ok(())
    }

    // Whether the tables have the lengths that it was commissioned with.
    fn lengths_fit(
        &self,
        replicas: &[Replica<F>],
        readers: &[Reader<F>],
        marks: &[RelayMark],
        messages: &[Message<F>],
        journal: &[Operation<F>],
    ) -> bool
        ensures { result ≡ fits self.now.numbers (tables replicas.now readers.now marks.now messages.now journal.now) }
    {
        let numbers = &self.numbers;
        parties_fit(numbers.replicas, numbers.readers, replicas, readers, marks)
            && messages.len() == numbers.message_room
            && journal.len() == numbers.journal_room
    }
}
