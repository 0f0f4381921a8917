//! Tables that could not be a register's, and tables beside them that could be: docs/PROTOCOL.md has the rules.

use super::changes::Change;
use super::fixture::{TestService, assert_declined, assert_same_end, busy_service};
use model::{Call, OperationKind, Party, Phase, ReadKind, Refusal};
use std::alloc::Global;
use std::process::Abort;
use std::test::Fail;

/// A change of a busy register's tables, maybe with another one, and with what each call is declined then. None: they can be those
/// of a register in service, so that each call is declined for what it asks for.
#[derive(Clone, Copy)]
pub struct Case {
    pub name: &'static str,
    pub change: Change,
    pub also: Option<Change>,
    pub refusal: Option<Refusal>,
}

/// Demands of each case, in a busy register, that the calls are declined so and alter no table, and that after all of them the
/// register goes on as if none had been.
pub(super) fn assert_cases(
    rt: &(impl Abort + Alloc<A = Global>),
    cases: &[Case],
) -> Result<(), Fail> {
    let mut service = busy_service(rt.alloc())?;
    for case in cases {
        assert_case(rt, &mut service, case)?;
    }
    assert_same_end(rt, service, busy_service(rt.alloc())?)?;
    Ok(())
}

fn assert_case(
    rt: &(impl Abort + Alloc<A = Global>),
    service: &mut TestService,
    case: &Case,
) -> Result<(), Fail> {
    let back = service.tables.change(case.change).ok_or("no such place")?;
    match case.also {
        None => assert_judged(rt, service, case)?,
        Some(change) => {
            let also_back = service.tables.change(change).ok_or("no such place")?;
            assert_judged(rt, service, case)?;
            service.tables.change(also_back).ok_or("no such place")?;
        }
    }
    service.tables.change(back).ok_or("no such place")?;
    Ok(())
}

// Demands that each of the six calls is declined as the case says. On tables that can be a register's, the six are declined all the same.
fn assert_judged(
    rt: &(impl Abort + Alloc<A = Global>),
    service: &mut TestService,
    case: &Case,
) -> Result<(), Fail> {
    for (call, own) in [
        (Call::Write(71), Refusal::Busy),
        (Call::Read(4, ReadKind::Quick), Refusal::NoSuchParty),
        (Call::Deliver(16), Refusal::NoMessage),
        (Call::Drop(16), Refusal::NoMessage),
        (Call::Duplicate(16), Refusal::NoMessage),
        (Call::Halt(Party::Reader(4)), Refusal::NoSuchParty),
    ] {
        assert_declined(rt, service, call, case.refusal.unwrap_or(own), case.name)?;
    }
    Ok(())
}

// The case of a change after which the tables are sound, or are not.
const fn one(name: &'static str, change: Change, sound: bool) -> Case {
    Case {
        name,
        change,
        also: None,
        refusal: if sound { None } else { Some(Refusal::Unsound) },
    }
}

// The same with two changes.
const fn two(name: &'static str, change: Change, also: Change, sound: bool) -> Case {
    Case {
        name,
        change,
        also: Some(also),
        refusal: if sound { None } else { Some(Refusal::Unsound) },
    }
}

#[derive(Clone, Copy, PartialEq, Eq)]
enum Role {
    Writer,
    Reader,
    Replica,
}

// Each kind of message: where one waits in a busy register, who sends and who receives it, and which operations it can serve there.
const KINDS: [(&str, usize, Role, Role, &[u16]); 9] = [
    ("PUT", 4, Role::Writer, Role::Replica, &[2]),
    ("PUT-ACK", 6, Role::Replica, Role::Writer, &[2]),
    ("QUERY", 7, Role::Reader, Role::Replica, &[1, 3]),
    ("HAVE", 9, Role::Replica, Role::Reader, &[1, 3]),
    ("BACK", 1, Role::Reader, Role::Replica, &[1, 3]),
    ("BACK-ACK", 3, Role::Replica, Role::Reader, &[1, 3]),
    ("FAN", 10, Role::Reader, Role::Replica, &[4]),
    ("RELAY", 11, Role::Replica, Role::Replica, &[4]),
    ("REPLY", 15, Role::Replica, Role::Reader, &[4]),
];

// Parties, and as what each exists.
const PARTIES: [(Party, Option<Role>); 9] = [
    (Party::Writer, Some(Role::Writer)),
    (Party::Reader(0), Some(Role::Reader)),
    (Party::Reader(3), Some(Role::Reader)),
    (Party::Reader(4), None),
    (Party::Reader(u32::MAX), None),
    (Party::Replica(0), Some(Role::Replica)),
    (Party::Replica(2), Some(Role::Replica)),
    (Party::Replica(3), None),
    (Party::Replica(u32::MAX), None),
];

const QUICK: OperationKind = OperationKind::Read(ReadKind::Quick);

const SETTLED: OperationKind = OperationKind::Read(ReadKind::Settled);

const RELAY: OperationKind = OperationKind::Read(ReadKind::Relay);

// Line 5, which is in no use, as it would suit reader 0.
const UNUSED: Change = Change::Line(4, QUICK, Party::Reader(0));

// Reader 0 is idle, so that line 3 is that of no reader's current read.
const IDLE: Change = Change::Reader(0, Phase::Idle, 0);

#[test]
fn a_message_goes_between_parties_that_suit_it(rt: HostRuntime) -> Result<(), Fail> {
    let mut cases = Vec::new(rt.alloc());
    for (name, place, sender, receiver, _) in KINDS {
        for (party, role) in PARTIES {
            cases.push(one(name, Change::Sender(place, party), role == Some(sender)))?;
            cases.push(one(name, Change::Receiver(place, party), role == Some(receiver)))?;
        }
    }
    assert_cases(&rt, cases.as_slice())
}

#[test]
fn a_message_serves_an_operation_of_its_kind(rt: HostRuntime) -> Result<(), Fail> {
    let mut cases = Vec::new(rt.alloc());
    for (name, place, _, _, operations) in KINDS {
        for operation in [0, 1, 2, 3, 4, 5, 6, 7, u16::MAX] {
            let sound = operations.contains(&operation);
            cases.push(two(name, Change::Operation(place, operation), UNUSED, sound))?;
        }
    }
    assert_cases(&rt, cases.as_slice())
}

#[test]
fn a_line_suits_its_messages_and_its_reader(rt: HostRuntime) -> Result<(), Fail> {
    assert_cases(
        &rt,
        &[
            one(
                "a write",
                Change::Line(1, OperationKind::Write, Party::Writer),
                true,
            ),
            one(
                "a write of a reader",
                Change::Line(1, OperationKind::Write, Party::Reader(0)),
                false,
            ),
            one(
                "a write of a replica",
                Change::Line(1, OperationKind::Write, Party::Replica(0)),
                false,
            ),
            one(
                "a read with PUT",
                Change::Line(1, QUICK, Party::Reader(0)),
                false,
            ),
            one(
                "a read of the writer with PUT",
                Change::Line(1, QUICK, Party::Writer),
                false,
            ),
            one(
                "a settled read",
                Change::Line(0, SETTLED, Party::Reader(1)),
                true,
            ),
            one(
                "a quick read with BACK",
                Change::Line(0, QUICK, Party::Reader(1)),
                true,
            ),
            one(
                "a relay read with BACK",
                Change::Line(0, RELAY, Party::Reader(1)),
                false,
            ),
            one(
                "a write with BACK",
                Change::Line(0, OperationKind::Write, Party::Writer),
                false,
            ),
            one(
                "a write of the reader",
                Change::Line(0, OperationKind::Write, Party::Reader(1)),
                false,
            ),
            one(
                "a read of another reader",
                Change::Line(0, SETTLED, Party::Reader(0)),
                false,
            ),
            one(
                "a read of no reader",
                Change::Line(0, SETTLED, Party::Reader(4)),
                false,
            ),
            one(
                "a read of the writer",
                Change::Line(0, SETTLED, Party::Writer),
                false,
            ),
            one(
                "a read of a replica",
                Change::Line(0, SETTLED, Party::Replica(1)),
                false,
            ),
            one(
                "a relay read",
                Change::Line(3, RELAY, Party::Reader(2)),
                true,
            ),
            one(
                "a quick read with FAN",
                Change::Line(3, QUICK, Party::Reader(2)),
                false,
            ),
            one(
                "a settled read with FAN",
                Change::Line(3, SETTLED, Party::Reader(2)),
                false,
            ),
            one(
                "a line in no use",
                Change::Line(4, OperationKind::Write, Party::Replica(9)),
                true,
            ),
            two(
                "of another reader",
                Change::Line(2, QUICK, Party::Reader(1)),
                IDLE,
                true,
            ),
            two(
                "of the last reader",
                Change::Line(2, QUICK, Party::Reader(3)),
                IDLE,
                true,
            ),
            two(
                "of no reader",
                Change::Line(2, QUICK, Party::Reader(4)),
                IDLE,
                false,
            ),
            two(
                "of the writer",
                Change::Line(2, QUICK, Party::Writer),
                IDLE,
                false,
            ),
            two(
                "of a replica",
                Change::Line(2, QUICK, Party::Replica(0)),
                IDLE,
                false,
            ),
        ],
    )
}

#[test]
fn a_reader_is_idle_or_at_a_read_of_its_own(rt: HostRuntime) -> Result<(), Fail> {
    assert_cases(
        &rt,
        &[
            one(
                "in its first phase",
                Change::Reader(0, Phase::First, 3),
                true,
            ),
            one(
                "in its second phase",
                Change::Reader(0, Phase::Second, 3),
                true,
            ),
            one(
                "in the phase of relays",
                Change::Reader(0, Phase::Relay, 3),
                true,
            ),
            one("idle", Change::Reader(0, Phase::Idle, 0), true),
            one("idle at its read", Change::Reader(0, Phase::Idle, 3), false),
            two(
                "idle at a line in no use",
                Change::Reader(0, Phase::Idle, 5),
                UNUSED,
                false,
            ),
            one(
                "first phase, no read",
                Change::Reader(0, Phase::First, 0),
                false,
            ),
            one(
                "second phase, no read",
                Change::Reader(0, Phase::Second, 0),
                false,
            ),
            one(
                "phase of relays, no read",
                Change::Reader(0, Phase::Relay, 0),
                false,
            ),
            one(
                "at the read of reader 1",
                Change::Reader(0, Phase::First, 1),
                false,
            ),
            one("at the write", Change::Reader(0, Phase::First, 2), false),
            one(
                "at the read of reader 2",
                Change::Reader(0, Phase::Relay, 4),
                false,
            ),
            two(
                "at a line in no use",
                Change::Reader(0, Phase::First, 5),
                UNUSED,
                false,
            ),
            one(
                "behind the journal",
                Change::Reader(0, Phase::First, 7),
                false,
            ),
            one(
                "far behind the journal",
                Change::Reader(0, Phase::First, u16::MAX),
                false,
            ),
            one(
                "an idle one at the read of reader 0",
                Change::Reader(3, Phase::First, 3),
                false,
            ),
        ],
    )
}

#[test]
fn a_set_names_replicas_and_nothing_else_is_judged(rt: HostRuntime) -> Result<(), Fail> {
    let mut cases = Vec::new(rt.alloc());
    for (set, sound) in [
        (0b000, true),
        (0b111, true),
        (0b1000, false),
        (0b1111, false),
        (1 << 31, false),
        (u32::MAX, false),
    ] {
        for change in [
            Change::Replies(0, set),
            Change::Holders(0, set),
            // of an idle reader
            Change::Replies(3, set),
            Change::Holders(3, set),
            Change::Relayers(0, set),
            Change::Relayers(11, set),
        ] {
            cases.push(one("a set", change, sound))?;
        }
        cases.push(one("a reader's best", Change::Best(0, set), true))?;
        cases.push(one("a replica's stamp", Change::Replica(2, set), true))?;
        cases.push(one("a message's stamp", Change::Stamp(4, set), true))?;
        cases.push(one("a message in no use", Change::Operation(16, 0), true))?;
    }
    assert_cases(&rt, cases.as_slice())
}
