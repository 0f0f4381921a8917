ghost use Rattle.std.specs.Prelude.{◌≡◌, true};
ghost use Rattle.model.specs.Sound.{sound as is_sound};
ghost use Rattle.tables.specs.View.{tables, view, Kept, Fitting, rule_for};
ghost use Rattle.steps.specs.Doing.{judged, Does};

use crate::delivering::deliver_message;
use crate::halting::halt_party;
use crate::starting::{start_read, start_write};
use crate::transit::{drop_message, duplicate_message};
use model::{Call, Message, Operation, Reader, Refusal, RelayMark, Replica, Reply};
use quorum::QuorumSystem;
use tables::Numbers;

/// Any call on tables that are known to be sound: they are not checked again.
// The tables are lent slices, handed to each call one by one; rule, start and numbers are lent by & or &mut as a call needs.
pub fn step<R: QuorumSystem, F: Copy>(
    rule: &R,
    start: F,
    numbers: &mut Numbers,
    replicas: &mut [Replica<F>],
    readers: &mut [Reader<F>],
    marks: &mut [RelayMark],
    messages: &mut [Message<F>],
    journal: &mut [Operation<F>],
    call: Call<F>,
) -> Result<Reply<F>, Refusal>
    requires kept { Kept numbers.old }
    requires fits { Fitting numbers.old (tables replicas.old readers.old marks.old messages.old journal.old) }
    requires sound { is_sound (rule_for R.QuorumSystem rule.now numbers.old.replicas) (view start numbers.old (tables replicas.old readers.old marks.old messages.old journal.old)) ≡ true }
    ensures { Does start
        (judged (rule_for R.QuorumSystem rule.now numbers.old.replicas) (view start numbers.old (tables replicas.old readers.old marks.old messages.old journal.old)) call)
        numbers.old (tables replicas.old readers.old marks.old messages.old journal.old)
        result
        numbers.new (tables replicas.new readers.new marks.new messages.new journal.new) }
{
    match call {
        Call::Write(figure) => start_write(numbers, messages, journal, figure),
        Call::Read(reader, kind) => {
            start_read(start, numbers, readers, messages, journal, reader, kind)
        }
        Call::Deliver(place) => deliver_message(
            rule, start, numbers, replicas, readers, marks, messages, journal, place,
        ),
        Call::Drop(place) => drop_message(numbers, messages, place),
        Call::Duplicate(place) => duplicate_message(numbers, messages, place),
        Call::Halt(party) => halt_party(numbers, replicas, readers, party),
    }
}
