ghost use Rattle.std.specs.Prelude.{◌≡◌, Bool, List, length, slice_set, slice_index_or, OnOk, OnErr};
ghost use Rattle.std.specs.Result.{result_err};
ghost use Rattle.quorum.specs.Sets.{Rule as QuorumRule};
ghost use Rattle.model.specs.Records.{writer_halted, reader_halted, replica_halted};
ghost use Rattle.model.specs.Steps.{first_of};
ghost use Rattle.model.specs.declared.calls.Call.{Call as ModelCall};
ghost use Rattle.model.specs.declared.marks.RelayMark.{RelayMark as MarkRow};
ghost use Rattle.model.specs.declared.messages.Message.{Message as MessageRow};
ghost use Rattle.model.specs.declared.journal.Operation.{Operation as JournalRow};
ghost use Rattle.tables.specs.View.{tables, view, Kept};
ghost use Rattle.steps.specs.Doing.{judged, Does};
ghost use Rattle.steps.specs.Refusing.{again_test, stop_tests};

use model::{Party, Reader, Refusal, Replica, Reply, Writer};
use tables::Numbers;

/// Stops a party for good.
pub fn halt_party<F: Copy>(
    numbers: &mut Numbers,
    replicas: &mut [Replica<F>],
    readers: &mut [Reader<F>],
    party: Party,
) -> Result<Reply<F>, Refusal>
    requires { Kept numbers.old }
    ensures { (start : F) (rule : QuorumRule) (ks : List MarkRow) (ms : List (MessageRow F)) (ls : List (JournalRow F))
        → rule.size ≡ length replicas.old
        → length ms ≡ numbers.old.message_room → length ls ≡ numbers.old.journal_room
        → Does start (judged rule (view start numbers.old (tables replicas.old readers.old ks ms ls)) (ModelCall.Halt party))
        numbers.old (tables replicas.old readers.old ks ms ls)
        result
        numbers.new (tables replicas.new readers.new ks ms ls) }
{
    let stopped = match party {
        Party::Writer => stop(&mut numbers.writer),
        Party::Reader(reader) => stop_at(readers, reader),
        Party::Replica(replica) => stop_at(replicas, replica),
    };
    // `and`, not `?`: at a second exit each of the three arms would be proved once more.
    stopped.and(Ok(Reply::Done))
}

/// The record of a party, which can be stopped for good.
trait Stops: Copy {
    ghost is_halted: { Self → Bool };

    ghost halted: { Self → Self };

    fn is_halted(&self) -> bool
        ensures { result ≡ is_halted self.now };

    fn halted(self) -> Self
        ensures { result ≡ halted self };
}

impl Stops for Writer {
    ghost is_halted = { λ w. w.halted };

    ghost halted = { writer_halted };

    fn is_halted(&self) -> bool {
        self.halted
    }

    fn halted(self) -> Self {
        Writer {
            halted: true,
            ..self
        }
    }
}

impl<F: Copy> Stops for Reader<F> {
    ghost is_halted = { λ d. d.halted };

    ghost halted = { reader_halted };

    fn is_halted(&self) -> bool {
        self.halted
    }

    fn halted(self) -> Self {
        Reader {
            halted: true,
            ..self
        }
    }
}

impl<F: Copy> Stops for Replica<F> {
    ghost is_halted = { λ x. x.halted };

    ghost halted = { replica_halted };

    fn is_halted(&self) -> bool {
        self.halted
    }

    fn halted(self) -> Self {
        Replica {
            halted: true,
            ..self
        }
    }
}

// Stops a party, unless it is halted already.
fn stop<P: Stops>(party: &mut P) -> Result<(), Refusal>
    ensures verdict { result_err result ≡ first_of (again_test (P.Stops.is_halted party.old)) }
    ensures ok { OnOk result (party.new ≡ P.Stops.halted party.old) }
    ensures err { OnErr result (party.new ≡ party.old) }
{
    if party.is_halted() {
        return Err(Refusal::Halted);
    }
    *party = party.halted();
    Ok(())
}

// Stops the party at a place of its table.
fn stop_at<P: Stops>(table: &mut [P], place: u32) -> Result<(), Refusal>
    ensures verdict { (d : P) → result_err result ≡ first_of (stop_tests (length table.old) place (P.Stops.is_halted (slice_index_or table.old place d))) }
    ensures ok { OnOk result ((d : P) → table.new ≡ slice_set table.old place (P.Stops.halted (slice_index_or table.old place d))) }
    ensures err { OnErr result (table.new ≡ table.old) }
{
    // An index: what is written through a place that `get_mut` lends stays unproved here.
    let at = place as usize;
    if at >= table.len() {
        return Err(Refusal::NoSuchParty);
    }
    stop(&mut table[at])
}
