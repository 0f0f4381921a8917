//! The registers that the tests try: three replicas, of which one may fail, and four readers.

use super::changes::Record;
use super::records::{Answer, answer_of, rows_of};
use crate::service::{Lengths, Service, Tables};
use model::{
    Call, Message, MessageKind, Operation, OperationKind, Party, Phase, ReadKind, Reader, Refusal,
    RelayMark, Replica, Reply,
};
use quorum::Count;
use register::Draft;
use std::alloc::{AllocError, Global};
use std::process::Abort;
use std::test::Fail;

/// A register in service with its tables.
pub type TestService = Service<Count, u32>;

/// The figure that it starts with.
pub const START: u32 = 500;

/// How long its tables are, where nothing else is said.
pub const LENGTHS: Lengths = Lengths {
    replicas: 3,
    readers: 4,
    messages: 20,
    journal: 6,
};

/// Calls that bring a busy register about. Then operation 1 is a settled read of reader 1 in its second phase, 2 a write, 3 a
/// quick read of reader 0, 4 a relay read of reader 2, all under way; reader 3 is idle. 16 messages wait, some of each kind.
pub const BUSY: [Call<u32>; 15] = [
    // reader 1 has heard of replicas 0 and 1, and places what it found
    Call::Read(1, ReadKind::Settled),
    Call::Deliver(0),
    Call::Deliver(0),
    Call::Deliver(1),
    Call::Deliver(1),
    Call::Deliver(1),
    // replica 0 has taken the figure
    Call::Write(70),
    Call::Deliver(4),
    Call::Read(0, ReadKind::Quick),
    Call::Deliver(7),
    // replicas 0 and 1 have relayed to replica 0, which has replied
    Call::Read(2, ReadKind::Relay),
    Call::Deliver(10),
    Call::Deliver(10),
    Call::Deliver(11),
    Call::Deliver(13),
];

/// The draft of a register.
pub(super) fn draft() -> Result<Draft<Count, u32>, Fail> {
    Ok(Draft::new(Count::new(3, 1)?, 4, START)?)
}

/// A register in service with room for so many messages and lines. Its tables were full of marked records before.
pub(super) fn new_service(
    heap: Global,
    messages: usize,
    journal: usize,
) -> Result<TestService, Fail> {
    let lengths = Lengths {
        messages,
        journal,
        ..LENGTHS
    };
    let tables = marked_tables(heap, lengths)?;
    Ok(Service::over(draft()?, tables).ok_or("no such lengths")?)
}

/// Does the calls, of which none is declined.
pub(super) fn play(service: &mut TestService, calls: &[Call<u32>]) -> Result<(), Refusal> {
    for call in calls {
        service.call(*call)?;
    }
    Ok(())
}

/// A busy register.
pub(super) fn busy_service(heap: Global) -> Result<TestService, Fail> {
    let mut service = new_service(heap, LENGTHS.messages, LENGTHS.journal)?;
    play(&mut service, &BUSY)?;
    Ok(service)
}

const MARKED_REPLICA: Replica<u32> = Replica {
    stamp: 1001,
    figure: 1002,
    halted: true,
};

const MARKED_READER: Reader<u32> = Reader {
    halted: true,
    operation: 1003,
    phase: Phase::Second,
    replies: 1004,
    best_stamp: 1005,
    best_figure: 1006,
    holders: 1007,
};

const MARKED_MARK: RelayMark = RelayMark {
    operation: 1008,
    relayers: 1009,
    replied: true,
};

/// Tables of these lengths in which no record could be a register's, and no message or line is like another.
pub(super) fn marked_tables(heap: Global, lengths: Lengths) -> Result<Tables<u32>, AllocError> {
    let mut tables = Tables::blank(heap, lengths, START)?;
    tables.replicas.fill(MARKED_REPLICA);
    tables.readers.fill(MARKED_READER);
    tables.marks.fill(MARKED_MARK);
    for (number, message) in (2000..9000).zip(tables.messages.iter_mut()) {
        *message = marked_message(number);
    }
    for (number, line) in (2000..9000).zip(tables.journal.iter_mut()) {
        *line = marked_line(number);
    }
    Ok(tables)
}

/// A marked record for each of the tables.
pub(super) fn marked_records() -> [Record; 5] {
    [
        Record::Replica(MARKED_REPLICA),
        Record::Reader(MARKED_READER),
        Record::Mark(MARKED_MARK),
        Record::Message(marked_message(9000)),
        Record::Line(marked_line(9000)),
    ]
}

fn marked_message(number: u16) -> Message<u32> {
    Message {
        kind: MessageKind::Reply,
        operation: number,
        sender: Party::Reader(u32::from(number)),
        receiver: Party::Reader(u32::from(number)),
        stamp: u32::from(number),
        figure: u32::from(number),
    }
}

fn marked_line(number: u16) -> Operation<u32> {
    Operation {
        kind: OperationKind::Read(ReadKind::Relay),
        owner: Party::Reader(u32::from(number)),
        started: u32::from(number),
        finished: u32::from(number),
        exchanges: 9,
        stamp: u32::from(number),
        figure: u32::from(number),
        sent: number,
    }
}

/// Does a call through the method of its own.
pub(super) fn by_method(service: &mut TestService, call: Call<u32>) -> Result<Reply<u32>, Refusal> {
    let Service { register, tables } = service;
    match call {
        Call::Write(figure) => register.write(
            &tables.replicas,
            &tables.readers,
            &tables.marks,
            &mut tables.messages,
            &mut tables.journal,
            figure,
        ),
        Call::Read(reader, kind) => register.read(
            &tables.replicas,
            &mut tables.readers,
            &tables.marks,
            &mut tables.messages,
            &mut tables.journal,
            reader,
            kind,
        ),
        Call::Deliver(place) => register.deliver(
            &mut tables.replicas,
            &mut tables.readers,
            &mut tables.marks,
            &mut tables.messages,
            &mut tables.journal,
            place,
        ),
        Call::Drop(place) => register.drop(
            &tables.replicas,
            &tables.readers,
            &tables.marks,
            &mut tables.messages,
            &tables.journal,
            place,
        ),
        Call::Duplicate(place) => register.duplicate(
            &tables.replicas,
            &tables.readers,
            &tables.marks,
            &mut tables.messages,
            &tables.journal,
            place,
        ),
        Call::Halt(party) => register.halt(
            &mut tables.replicas,
            &mut tables.readers,
            &tables.marks,
            &tables.messages,
            &tables.journal,
            party,
        ),
    }
}

/// Demands that a call is declined with this refusal, through its own method and through `call`, and alters no table.
pub(super) fn assert_declined(
    rt: &(impl Abort + Alloc<A = Global>),
    service: &mut TestService,
    call: Call<u32>,
    refusal: Refusal,
    case: &str,
) -> Result<(), AllocError> {
    let before = rows_of(rt.alloc(), &service.tables)?;
    let want = Answer::Declined(refusal);
    assert_eq!(rt; answer_of(by_method(service, call)), want, "{case}");
    assert_eq!(rt; answer_of(service.call(call)), want, "{case}");
    let after = rows_of(rt.alloc(), &service.tables)?;
    assert_eq!(rt; after, before, "{case}");
    Ok(())
}

/// Demands that two registers answer a call the same, the one through the call's own method, the other through `call`, and leave the
/// same tables. Gives the answer.
pub(super) fn assert_same_step(
    rt: &(impl Abort + Alloc<A = Global>),
    one: &mut TestService,
    other: &mut TestService,
    call: Call<u32>,
) -> Result<Answer, AllocError> {
    let found = answer_of(by_method(one, call));
    assert_eq!(rt; answer_of(other.call(call)), found);
    let rows = rows_of(rt.alloc(), &one.tables)?;
    assert_eq!(rt; rows_of(rt.alloc(), &other.tables)?, rows);
    Ok(found)
}

/// Demands that two registers go on in the same way, and with the same numbers at the end: 40 deliveries, another write and read, and
/// 40 deliveries more.
pub(super) fn assert_same_end(
    rt: &(impl Abort + Alloc<A = Global>),
    mut one: TestService,
    mut other: TestService,
) -> Result<(), AllocError> {
    for step in 0..82 {
        let call = match step {
            40 => Call::Write(72),
            41 => Call::Read(3, ReadKind::Relay),
            _ => Call::Deliver(0),
        };
        assert_same_step(rt, &mut one, &mut other, call)?;
    }
    assert_eq!(rt; one.register.close(), other.register.close());
    Ok(())
}
