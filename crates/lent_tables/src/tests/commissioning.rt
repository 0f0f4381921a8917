//! Drafts that are commissioned over lent tables, and drafts that come back.

use super::fixture::{LENGTHS, START, draft, marked_tables, new_service};
use super::records::rows_of;
use crate::service::{Lengths, Service, Tables};
use model::{Phase, Reader, Refusal, RelayMark, Replica};
use quorum::Count;
use register::{Draft, Tally};
use std::alloc::Global;
use std::process::Abort;
use std::test::Fail;

#[test]
fn commissioning_fills_the_tables_of_the_parties_alone(rt: HostRuntime) -> Result<(), Fail> {
    let service = new_service(rt.alloc(), LENGTHS.messages, LENGTHS.journal)?;
    let rows = rows_of(rt.alloc(), &service.tables)?;
    let tally = Tally {
        lines: 0,
        finished: 0,
        waiting: 0,
    };
    assert_eq!(rt; service.register.close(), tally);
    let mut new = marked_tables(rt.alloc(), LENGTHS)?;
    new.replicas.fill(Replica {
        stamp: 0,
        figure: START,
        halted: false,
    });
    new.readers.fill(Reader {
        halted: false,
        operation: 0,
        phase: Phase::Idle,
        replies: 0,
        best_stamp: 0,
        best_figure: START,
        holders: 0,
    });
    new.marks.fill(RelayMark {
        operation: 0,
        relayers: 0,
        replied: false,
    });
    assert_eq!(rt; rows, rows_of(rt.alloc(), &new)?);
    Ok(())
}

#[test]
fn a_draft_comes_back_from_tables_of_other_lengths(rt: HostRuntime) -> Result<(), Fail> {
    for (replicas, readers, marks, messages, journal, fit) in [
        (3, 4, 12, 3, 1, true),
        (3, 4, 12, 4096, 4096, true),
        (2, 4, 12, 20, 6, false),
        (4, 4, 12, 20, 6, false),
        (3, 3, 12, 20, 6, false),
        (3, 5, 12, 20, 6, false),
        (4, 3, 12, 20, 6, false),
        (3, 4, 11, 20, 6, false),
        (3, 4, 13, 20, 6, false),
        (3, 4, 12, 2, 6, false),
        (3, 4, 12, 0, 6, false),
        (3, 4, 12, 4097, 6, false),
        (3, 4, 12, 20, 0, false),
        (3, 4, 12, 20, 4097, false),
    ] {
        let lengths = Lengths {
            replicas,
            readers,
            messages,
            journal,
        };
        let mut tables = marked_tables(rt.alloc(), lengths)?;
        tables.marks.resize(marks, RelayMark::default())?;
        if fit {
            assert!(rt; Service::over(draft()?, tables).is_some());
        } else {
            let back = give_back(&rt, draft()?, &mut tables)?;
            let right = marked_tables(rt.alloc(), LENGTHS)?;
            assert!(rt; Service::over(back, right).is_some());
        }
    }
    Ok(())
}

// The draft that comes back from tables of other lengths, of which none was altered.
fn give_back(
    rt: &(impl Abort + Alloc<A = Global>),
    draft: Draft<Count, u32>,
    tables: &mut Tables<u32>,
) -> Result<Draft<Count, u32>, Fail> {
    let before = rows_of(rt.alloc(), tables)?;
    let outcome = draft.commission(
        &mut tables.replicas,
        &mut tables.readers,
        &mut tables.marks,
        &tables.messages,
        &tables.journal,
    );
    let back = outcome
        .err()
        .ok_or("commissioned over tables of other lengths")?;
    assert_eq!(rt; back.refusal, Refusal::TableLength);
    assert_eq!(rt; rows_of(rt.alloc(), tables)?, before);
    Ok(back.draft)
}
