//! Nodes that lead to a set, or to a cycle.

use graph_closure::{leading, recurring};
use std::alloc::AllocError;
use std::test::*;

// 0 and 1 lead to each other and to 2; 3 leads to 2 alone.
#[test]
fn nodes_that_lead_to_a_set_or_a_cycle_are_found(rt: HostRuntime) -> Result<(), AllocError> {
    let from = [0_u32, 1, 1, 3];
    let to = [1_u32, 0, 2, 2];
    let leads = leading(rt.alloc(), &from, &to, &[false, false, true, false])?;
    assert_eq!(rt; leads.as_slice(), [true, true, true, true].as_slice());
    let leads = leading(rt.alloc(), &from, &to, &[false, false, false, true])?;
    assert_eq!(rt; leads.as_slice(), [false, false, false, true].as_slice());
    let recurs = recurring(rt.alloc(), &from, &to, 4)?;
    assert_eq!(rt; recurs.as_slice(), [true, true, false, false].as_slice());
    Ok(())
}
