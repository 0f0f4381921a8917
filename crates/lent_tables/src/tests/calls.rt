//! What the calls answer and leave: through their own methods, through `call` and through `run`.

use super::fixture::{BUSY, LENGTHS, TestService, assert_same_step, by_method, new_service};
use super::records::{Answer, Row, answer_of, line_row, message_row, rows_of};
use crate::service::Tables;
use model::{Call, Party, ReadKind, Refusal};
use register::Tally;
use std::alloc::{AllocError, Global};
use std::process::Abort;
use std::test::Fail;

// Each call in each of its kinds, some of them declined.
const MIXED: [Call<u32>; 24] = [
    Call::Write(70),
    Call::Duplicate(1),
    Call::Deliver(0),
    Call::Drop(1),
    Call::Read(2, ReadKind::Relay),
    Call::Write(71),
    Call::Deliver(0),
    Call::Deliver(0),
    Call::Read(0, ReadKind::Quick),
    Call::Halt(Party::Replica(2)),
    Call::Read(1, ReadKind::Settled),
    Call::Deliver(1),
    Call::Deliver(30),
    Call::Deliver(2),
    Call::Halt(Party::Reader(1)),
    Call::Read(1, ReadKind::Quick),
    Call::Deliver(3),
    Call::Deliver(3),
    Call::Duplicate(9),
    Call::Drop(5),
    Call::Halt(Party::Writer),
    Call::Halt(Party::Writer),
    Call::Write(72),
    Call::Deliver(0),
];

#[test]
fn the_first_script_is_answered(rt: HostRuntime) -> Result<(), Fail> {
    let mut service = new_service(rt.alloc(), LENGTHS.messages, LENGTHS.journal)?;
    for (call, want) in [
        (Call::Write(1250), Answer::Started(1)),
        (Call::Deliver(0), Answer::Done),
        (Call::Read(0, ReadKind::Quick), Answer::Started(2)),
        (Call::Deliver(3), Answer::Done),
        (Call::Deliver(3), Answer::Done),
        (Call::Deliver(4), Answer::Done),
        (Call::Deliver(4), Answer::Done),
        (Call::Deliver(4), Answer::Done),
        (Call::Deliver(4), Answer::Done),
        (Call::Deliver(5), Answer::Done),
        (
            Call::Deliver(5),
            Answer::Finished {
                operation: 2,
                stamp: 1,
                figure: 1250,
                sent: 10,
                exchanges: 4,
            },
        ),
        (Call::Write(1260), Answer::Declined(Refusal::Busy)),
    ] {
        assert_eq!(rt; answer_of(by_method(&mut service, call)), want);
    }
    let tally = Tally {
        lines: 2,
        finished: 1,
        waiting: 5,
    };
    assert_eq!(rt; service.register.close(), tally);
    Ok(())
}

#[test]
fn each_way_to_call_does_the_same(rt: HostRuntime) -> Result<(), Fail> {
    let mut one = new_service(rt.alloc(), LENGTHS.messages, LENGTHS.journal)?;
    let mut other = new_service(rt.alloc(), LENGTHS.messages, LENGTHS.journal)?;
    let answers = step_by_step(&rt, &mut one, &mut other)?;
    let rows = rows_of(rt.alloc(), &one.tables)?;
    let tally = one.register.close();
    assert_eq!(rt; other.register.close(), tally);
    let mut listed = new_service(rt.alloc(), LENGTHS.messages, LENGTHS.journal)?;
    assert_eq!(rt; run(rt.alloc(), &mut listed, &MIXED)?, answers);
    assert_eq!(rt; rows_of(rt.alloc(), &listed.tables)?, rows);
    assert_eq!(rt; listed.register.close(), tally);
    Ok(())
}

// The answers, which two registers give each in its way.
fn step_by_step(
    rt: &(impl Abort + Alloc<A = Global>),
    one: &mut TestService,
    other: &mut TestService,
) -> Result<Vec<Answer>, AllocError> {
    let mut answers = Vec::new(rt.alloc());
    for call in MIXED {
        answers.push(assert_same_step(rt, one, other, call)?)?;
    }
    Ok(answers)
}

fn run(
    heap: Global,
    service: &mut TestService,
    calls: &[Call<u32>],
) -> Result<Vec<Answer>, AllocError> {
    let tables = &mut service.tables;
    let replies = service.register.run(
        heap,
        &mut tables.replicas,
        &mut tables.readers,
        &mut tables.marks,
        &mut tables.messages,
        &mut tables.journal,
        calls,
    )?;
    replies.into_iter().map(answer_of).collect(heap)
}

#[test]
fn places_that_are_not_in_use_keep_what_they_held(rt: HostRuntime) -> Result<(), Fail> {
    let mut service = new_service(rt.alloc(), LENGTHS.messages, LENGTHS.journal)?;
    let used = [
        (3, 1),
        (3, 1),
        (3, 1),
        (2, 1),
        (4, 1),
        (4, 1),
        (7, 2),
        (7, 2),
        (10, 3),
        (10, 3),
        (13, 4),
        (15, 4),
        (17, 4),
        (16, 4),
        (16, 4),
    ];
    assert_keeps(&rt, &mut service, &BUSY, &used)?;
    let calls = [
        Call::Duplicate(3),
        Call::Drop(16),
        Call::Drop(0),
        Call::Drop(7),
        Call::Halt(Party::Replica(1)),
        Call::Deliver(3),
    ];
    assert_keeps(
        &rt,
        &mut service,
        &calls,
        &[(17, 4), (16, 4), (15, 4), (14, 4), (14, 4), (13, 4)],
    )?;
    let tally = Tally {
        lines: 4,
        finished: 0,
        waiting: 13,
    };
    assert_eq!(rt; service.register.close(), tally);
    Ok(())
}

// Demands that no call alters a place that is not in use after it. Of each it is said how many messages wait then, and how many lines
// are in use.
fn assert_keeps(
    rt: &(impl Abort + Alloc<A = Global>),
    service: &mut TestService,
    calls: &[Call<u32>],
    used: &[(usize, usize)],
) -> Result<(), Fail> {
    for (call, (waiting, lines)) in calls.iter().zip(used) {
        let before = unused_rows(rt.alloc(), &service.tables, *waiting, *lines)?;
        service.call(*call)?;
        let after = unused_rows(rt.alloc(), &service.tables, *waiting, *lines)?;
        assert_eq!(rt; after, before);
    }
    Ok(())
}

fn unused_rows(
    heap: Global,
    tables: &Tables<u32>,
    waiting: usize,
    lines: usize,
) -> Result<Vec<Row>, Fail> {
    let messages = tables.messages.get(waiting..).ok_or("no such place")?;
    let journal = tables.journal.get(lines..).ok_or("no such place")?;
    let mut rows = Vec::new(heap);
    for message in messages {
        rows.push(message_row(message))?;
    }
    for line in journal {
        rows.push(line_row(line))?;
    }
    Ok(rows)
}
