//! Tables of other lengths than the register was commissioned with.

use super::changes::Change;
use super::fixture::marked_records;
use super::soundness::{Case, assert_cases};
use model::Refusal;
use std::test::Fail;

#[test]
fn a_table_of_another_length_is_declined(rt: HostRuntime) -> Result<(), Fail> {
    let mut cases = Vec::new(rt.alloc());
    for (number, record) in (0..5).zip(marked_records()) {
        for also in [None, Some(Change::Relayers(0, 0b1000))] {
            for change in [Change::Longer(record), Change::Shorter(record)] {
                cases.push(Case {
                    name: "longer or shorter",
                    change,
                    also,
                    refusal: Some(Refusal::TableLength),
                })?;
            }
        }
        for (other_number, other) in (0..5).zip(marked_records()) {
            if number != other_number {
                cases.push(Case {
                    name: "one shorter, another longer",
                    change: Change::Shorter(record),
                    also: Some(Change::Longer(other)),
                    refusal: Some(Refusal::TableLength),
                })?;
            }
        }
    }
    assert_cases(&rt, cases.as_slice())
}
