//! Code that holds a draft, a register or a cluster, and closes it, whatever the rule is: nothing is asked of the rule but that it
//! may be dropped.

use super::fixture::{LENGTHS, draft, marked_tables};
use register::{Cluster, Draft, Register, Tally, Uncommissioned, Unfounded};
use std::test::Fail;

#[derive(Drop)]
struct Shelf<R, F> {
    draft: Draft<R, F>,
    commissioned: Result<Register<R, F>, Uncommissioned<R, F>>,
    founded: Result<Cluster<R, F>, Unfounded<R, F>>,
}

impl<R: Drop, F: Copy> Shelf<R, F> {
    fn close(self) -> Option<[Tally; 2]> {
        let register = self.commissioned.ok()?;
        let cluster = self.founded.ok()?;
        Some([register.close(), cluster.close()])
    }
}

#[test]
fn a_register_of_any_rule_is_held_and_closed(rt: HostRuntime) -> Result<(), Fail> {
    let mut tables = marked_tables(rt.alloc(), LENGTHS)?;
    let shelf = Shelf {
        draft: draft()?,
        commissioned: draft()?.commission(
            &mut tables.replicas,
            &mut tables.readers,
            &mut tables.marks,
            &tables.messages,
            &tables.journal,
        ),
        founded: draft()?.found(rt.alloc(), LENGTHS.messages, LENGTHS.journal),
    };
    let tally = Tally {
        lines: 0,
        finished: 0,
        waiting: 0,
    };
    assert_eq!(rt; shelf.close(), Some([tally; 2]));
    Ok(())
}
