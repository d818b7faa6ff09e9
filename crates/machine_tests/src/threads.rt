//! The state of a thread.

use crate::programs::empty;
use frames::ThreadState;
use jvm_types::End;
use machine_types::{Config, Held, Kept, Phase};
use std::alloc::AllocError;
use std::test::*;

const SETTINGS: Config = Config {
    steps: 1000,
    turns: 100,
    prints: 1_048_576,
    elide: true,
    range: 4,
};

#[test]
fn a_thread_without_roots_has_returned(rt: HostRuntime) -> Result<(), AllocError> {
    let p = empty(rt.alloc())?;
    let s = ThreadState::start(rt.alloc(), 0, &p, &SETTINGS)?;
    assert_eq!(rt; s.end(), Some(End::Returned));
    assert_eq!(rt; s.depth(), 0);
    assert_eq!(rt; s.into_report().end, End::Returned);
    Ok(())
}

#[test]
fn what_a_thread_holds_goes_by_the_monitor(rt: HostRuntime) -> Result<(), AllocError> {
    let p = empty(rt.alloc())?;
    let mut s = ThreadState::start(rt.alloc(), 1, &p, &SETTINGS)?;
    assert_eq!(rt; s.phase(), Phase::Idle);
    let once = Held {
        monitor: 96,
        kept: Kept::Flat(3),
        depth: 1,
    };
    s.put_held(once);
    s.put_held(Held { depth: 2, ..once });
    assert_eq!(rt; s.held(96), Some(Held { depth: 2, ..once }));
    s.drop_held(96);
    assert_eq!(rt; s.held(96), None);
    Ok(())
}
