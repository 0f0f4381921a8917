//! The refusals that are a call's own, in the order in which docs/PROTOCOL.md has them.

use super::changes::Change;
use super::fixture::{
    BUSY, LENGTHS, TestService, assert_declined, assert_same_end, new_service, play,
};
use model::{Call, Party, ReadKind, Refusal};
use std::alloc::Global;
use std::process::Abort;
use std::test::Fail;

const WRITE: Call<u32> = Call::Write(70);

const QUICK: Call<u32> = Call::Read(0, ReadKind::Quick);

const SETTLED: Call<u32> = Call::Read(0, ReadKind::Settled);

const RELAY: Call<u32> = Call::Read(0, ReadKind::Relay);

const HALT_WRITER: Call<u32> = Call::Halt(Party::Writer);

const HALT_READER: Call<u32> = Call::Halt(Party::Reader(0));

const HALT_REPLICA: Call<u32> = Call::Halt(Party::Replica(0));

// Reader 0 has heard of replica 0.
const HEARS: [Call<u32>; 3] = [QUICK, Call::Deliver(0), Call::Deliver(2)];

// Reader 0 has finished a read, and one message waits.
const READS: [Call<u32>; 5] = [
    QUICK,
    Call::Deliver(0),
    Call::Deliver(0),
    Call::Deliver(1),
    Call::Deliver(1),
];

// Reader 0 has heard of replica 0, and is halted.
const HEARS_HALTS: [Call<u32>; 4] = [QUICK, Call::Deliver(0), Call::Deliver(2), HALT_READER];

// A call that is declined after some others, on tables with room for so many messages and lines. The first message may have another
// stamp by then.
#[derive(Clone, Copy)]
struct Case {
    name: &'static str,
    messages: usize,
    journal: usize,
    before: &'static [Call<u32>],
    stamp: Option<u32>,
    call: Call<u32>,
    refusal: Refusal,
}

// Demands that the call of each case is declined so and alters no table, and that the register then goes on as if it had not been.
fn assert_cases(rt: &(impl Abort + Alloc<A = Global>), cases: &[Case]) -> Result<(), Fail> {
    for case in cases {
        let mut tried = begin(rt.alloc(), case)?;
        assert_case(rt, &mut tried, case)?;
        assert_same_end(rt, tried, begin(rt.alloc(), case)?)?;
    }
    Ok(())
}

fn begin(heap: Global, case: &Case) -> Result<TestService, Fail> {
    let mut service = new_service(heap, case.messages, case.journal)?;
    play(&mut service, case.before)?;
    Ok(service)
}

fn assert_case(
    rt: &(impl Abort + Alloc<A = Global>),
    service: &mut TestService,
    case: &Case,
) -> Result<(), Fail> {
    match case.stamp {
        None => assert_declined(rt, service, case.call, case.refusal, case.name)?,
        Some(stamp) => {
            let back = service
                .tables
                .change(Change::Stamp(0, stamp))
                .ok_or("no message")?;
            assert_declined(rt, service, case.call, case.refusal, case.name)?;
            service.tables.change(back).ok_or("no message")?;
        }
    }
    Ok(())
}

// A case with room enough.
const fn roomy(
    name: &'static str,
    before: &'static [Call<u32>],
    call: Call<u32>,
    refusal: Refusal,
) -> Case {
    Case {
        name,
        messages: LENGTHS.messages,
        journal: LENGTHS.journal,
        before,
        stamp: None,
        call,
        refusal,
    }
}

impl Case {
    // With room for one message to each replica.
    const fn narrow(self) -> Case {
        Case {
            messages: 3,
            ..self
        }
    }

    // With a journal of one line.
    const fn short(self) -> Case {
        Case { journal: 1, ..self }
    }

    // With this stamp in the first message.
    const fn stamped(self, stamp: u32) -> Case {
        Case {
            stamp: Some(stamp),
            ..self
        }
    }
}

#[test]
fn each_refusal_is_given(rt: HostRuntime) -> Result<(), Fail> {
    assert_cases(
        &rt,
        &[
            roomy(
                "no reader to read",
                &[],
                Call::Read(4, ReadKind::Quick),
                Refusal::NoSuchParty,
            ),
            roomy(
                "no reader to halt",
                &[],
                Call::Halt(Party::Reader(4)),
                Refusal::NoSuchParty,
            ),
            roomy(
                "no replica to halt",
                &[],
                Call::Halt(Party::Replica(3)),
                Refusal::NoSuchParty,
            ),
            roomy(
                "nothing to deliver",
                &[],
                Call::Deliver(0),
                Refusal::NoMessage,
            ),
            roomy("nothing to drop", &[], Call::Drop(0), Refusal::NoMessage),
            roomy(
                "nothing to copy",
                &[],
                Call::Duplicate(0),
                Refusal::NoMessage,
            ),
            roomy(
                "behind the last to deliver",
                &[WRITE],
                Call::Deliver(3),
                Refusal::NoMessage,
            ),
            roomy(
                "behind the last to drop",
                &[WRITE],
                Call::Drop(3),
                Refusal::NoMessage,
            ),
            roomy(
                "behind the last to copy",
                &[WRITE],
                Call::Duplicate(3),
                Refusal::NoMessage,
            ),
            roomy(
                "a stamp ahead",
                &[RELAY],
                Call::Deliver(0),
                Refusal::StampAhead,
            )
            .stamped(1),
            roomy(
                "the writer is halted",
                &[HALT_WRITER],
                WRITE,
                Refusal::Halted,
            ),
            roomy("the reader is halted", &HEARS_HALTS, QUICK, Refusal::Halted),
            roomy(
                "writer halted twice",
                &[HALT_WRITER],
                HALT_WRITER,
                Refusal::Halted,
            ),
            roomy(
                "reader halted twice",
                &HEARS_HALTS,
                HALT_READER,
                Refusal::Halted,
            ),
            roomy(
                "replica halted twice",
                &[HALT_REPLICA],
                HALT_REPLICA,
                Refusal::Halted,
            ),
            roomy("the writer writes", &[WRITE], WRITE, Refusal::Busy),
            roomy("the reader reads", &HEARS, SETTLED, Refusal::Busy),
            roomy("no line for a read", &READS, QUICK, Refusal::JournalFull).short(),
            roomy("no line for a write", &[QUICK], WRITE, Refusal::JournalFull).short(),
            roomy("no room to write", &[QUICK], WRITE, Refusal::NoRoom).narrow(),
            roomy("no room to read", &READS, QUICK, Refusal::NoRoom).narrow(),
            roomy(
                "no room for a copy",
                &[WRITE],
                Call::Duplicate(0),
                Refusal::NoRoom,
            )
            .narrow(),
            roomy(
                "no room for relays",
                &[RELAY],
                Call::Deliver(0),
                Refusal::NoRoom,
            )
            .narrow(),
            roomy(
                "no room for a second round",
                &[
                    SETTLED,
                    Call::Deliver(0),
                    Call::Deliver(0),
                    Call::Deliver(1),
                    Call::Duplicate(0),
                ],
                Call::Deliver(1),
                Refusal::NoRoom,
            )
            .narrow(),
        ],
    )
}

#[test]
fn the_first_refusal_that_applies_is_given(rt: HostRuntime) -> Result<(), Fail> {
    assert_cases(
        &rt,
        &[
            roomy(
                "5 before 8",
                &[WRITE],
                Call::Read(4, ReadKind::Quick),
                Refusal::NoSuchParty,
            )
            .short(),
            roomy(
                "5 before 9",
                &[WRITE],
                Call::Read(4, ReadKind::Quick),
                Refusal::NoSuchParty,
            )
            .narrow(),
            roomy(
                "10 before 9",
                &[WRITE],
                Call::Duplicate(3),
                Refusal::NoMessage,
            )
            .narrow(),
            roomy(
                "11 before 9",
                &[RELAY],
                Call::Deliver(0),
                Refusal::StampAhead,
            )
            .stamped(1)
            .narrow(),
            roomy(
                "11 before the receiver",
                &[WRITE, HALT_REPLICA],
                Call::Deliver(0),
                Refusal::StampAhead,
            )
            .stamped(2),
            roomy(
                "no 11 for a copy",
                &[WRITE],
                Call::Duplicate(0),
                Refusal::NoRoom,
            )
            .stamped(2)
            .narrow(),
            roomy(
                "6 before 7, writer",
                &[WRITE, HALT_WRITER],
                WRITE,
                Refusal::Halted,
            ),
            roomy(
                "6 before 7, reader",
                &[QUICK, HALT_READER],
                QUICK,
                Refusal::Halted,
            ),
            roomy("6 before 8", &[WRITE, HALT_READER], QUICK, Refusal::Halted).short(),
            roomy("6 before 9", &[QUICK, HALT_WRITER], WRITE, Refusal::Halted).narrow(),
            roomy("7 before 8", &[WRITE], WRITE, Refusal::Busy).short(),
            roomy("7 before 9", &[QUICK], QUICK, Refusal::Busy).narrow(),
            roomy("8 before 9", &[WRITE], QUICK, Refusal::JournalFull)
                .short()
                .narrow(),
        ],
    )
}

#[test]
fn a_message_with_a_stamp_ahead_is_not_delivered(rt: HostRuntime) -> Result<(), Fail> {
    for place in 0..16 {
        for (stamp, want) in [
            (0, None),
            (1, None),
            (2, Some(Refusal::StampAhead)),
            (u32::MAX, Some(Refusal::StampAhead)),
        ] {
            let mut service = new_service(rt.alloc(), LENGTHS.messages, LENGTHS.journal)?;
            play(&mut service, &BUSY)?;
            service
                .tables
                .change(Change::Stamp(place as usize, stamp))
                .ok_or("no message")?;
            let found = service.call(Call::Deliver(place)).err();
            assert_eq!(rt; found, want, "stamp {stamp} at {place}");
        }
    }
    Ok(())
}
