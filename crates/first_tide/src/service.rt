ghost use Rattle.std.specs.Prelude.{◌≡◌, MatchResult};
ghost use Rattle.model.specs.declared.calls.Call.{Call as ModelCall};
ghost use Rattle.model.specs.declared.journal.ReadKind.{ReadKind as ModelReadKind};
ghost use Rattle.register.specs.Calls.{Plays};
ghost use Rattle.register.specs.Runs.{Runs};
ghost use Rattle.register.specs.Service.{closed};
ghost use Rattle.first_tide.specs.Lent.{lent};

use crate::memory::Memory;
use figure::Tide;
use model::{Call, ReadKind, Refusal, Reply};
use quorum::{Count, QuorumSystem};
use register::{Register, Tally};
use std::alloc::{AllocError, Global};

/// A register in service, and the memory that is lent to each of its calls.
#[derive(Drop)]
pub struct Service {
    pub register: Register<Count, Tide>,
    pub memory: Memory,
}

// Each call promises what the register's promises: the model's step, and the claims over every history that led to it.
impl Service {
    /// Writes the tide.
    pub fn write(&mut self, tide: Tide) -> Result<Reply<Tide>, Refusal>
        ensures { Plays ⟦<Count as QuorumSystem>⟧ (ModelCall.Write tide) self.old.register (lent self.old.memory) result self.new.register (lent self.new.memory) }
    {
        let Service { register, memory } = self;
        register.write(
            &memory.replicas,
            &memory.readers,
            &memory.marks,
            &mut memory.messages,
            &mut memory.journal,
            tide,
        )
    }

    /// Starts a quick read by the reader.
    pub fn read(&mut self) -> Result<Reply<Tide>, Refusal>
        ensures { Plays ⟦<Count as QuorumSystem>⟧ (ModelCall.Read 0 ModelReadKind.Quick) self.old.register (lent self.old.memory) result self.new.register (lent self.new.memory) }
    {
        let Service { register, memory } = self;
        register.read(
            &memory.replicas,
            &mut memory.readers,
            &memory.marks,
            &mut memory.messages,
            &mut memory.journal,
            0,
            ReadKind::Quick,
        )
    }

    /// Delivers the message that has waited longest.
    pub fn deliver(&mut self) -> Result<Reply<Tide>, Refusal>
        ensures { Plays ⟦<Count as QuorumSystem>⟧ (ModelCall.Deliver 0) self.old.register (lent self.old.memory) result self.new.register (lent self.new.memory) }
    {
        let Service { register, memory } = self;
        register.deliver(
            &mut memory.replicas,
            &mut memory.readers,
            &mut memory.marks,
            &mut memory.messages,
            &mut memory.journal,
            0,
        )
    }

    /// Loses the message that has waited longest.
    pub fn lose(&mut self) -> Result<Reply<Tide>, Refusal>
        ensures { Plays ⟦<Count as QuorumSystem>⟧ (ModelCall.Drop 0) self.old.register (lent self.old.memory) result self.new.register (lent self.new.memory) }
    {
        let Service { register, memory } = self;
        register.drop(
            &memory.replicas,
            &memory.readers,
            &memory.marks,
            &mut memory.messages,
            &memory.journal,
            0,
        )
    }

    /// Does the calls one after the other, and gives their answers. For want of memory none is done.
    pub fn run(
        &mut self,
        heap: Global,
        calls: &[Call<Tide>],
    ) -> Result<Vec<Result<Reply<Tide>, Refusal>>, AllocError>
        ensures { MatchResult result
            (λ replies. Runs ⟦<Count as QuorumSystem>⟧ calls.now self.old.register (lent self.old.memory) replies.items self.new.register (lent self.new.memory))
            (λ _. (self.new.register ≡ self.old.register) × (lent self.new.memory ≡ lent self.old.memory)) }
    {
        let Service { register, memory } = self;
        register.run(
            heap,
            &mut memory.replicas,
            &mut memory.readers,
            &mut memory.marks,
            &mut memory.messages,
            &mut memory.journal,
            calls,
        )
    }

    /// Closes the register, and gives its tally.
    pub fn close(self) -> Tally
        ensures { result ≡ closed self.register }
    {
        self.register.close()
    }
}
