ghost use Rattle.std.specs.Prelude.{◌≡◌, MatchResult};
ghost use Rattle.tables.specs.View.{tables};
ghost use Rattle.register.specs.Runs.{Runs};

use super::Register;
use model::{Call, Message, Operation, Reader, Refusal, RelayMark, Replica, Reply};
use quorum::QuorumSystem;
use std::alloc::{AllocError, Global};

impl<R: QuorumSystem, F: Copy> Register<R, F> {
    /// Does the calls one after the other, each as `call` does it, and gives their answers in the same order.
    ///
    /// A declined call alters nothing, and the next ones are done. For want of memory none is done, and nothing is altered.
    pub fn run(
        &mut self,
        heap: Global,
        replicas: &mut [Replica<F>],
        readers: &mut [Reader<F>],
        marks: &mut [RelayMark],
        messages: &mut [Message<F>],
        journal: &mut [Operation<F>],
        calls: &[Call<F>],
    ) -> Result<Vec<Result<Reply<F>, Refusal>>, AllocError>
        ensures { MatchResult result
            (λ replies. Runs R.QuorumSystem calls.now
            self.old (tables replicas.old readers.old marks.old messages.old journal.old)
            replies.items
            self.new (tables replicas.new readers.new marks.new messages.new journal.new))
            (λ _. (self.new ≡ self.old)
            × (tables replicas.new readers.new marks.new messages.new journal.new
            ≡ tables replicas.old readers.old marks.old messages.old journal.old)) }
    {
        // the room first, so that for want of memory no call is done: a `collect` could fail half-way
        let mut replies = Vec::with_capacity(heap, calls.len())?;
        for call in calls {
            let reply = self.call(replicas, readers, marks, messages, journal, *call);
            replies.push(reply)?;
        }
        Ok(replies)
    }
}
