//! Accesses to the words that threads share.

use instr_effects::{perform, wants};
use jvm_types::Rows;
use machine_types::{Access, Effect, Variable};
use std::alloc::AllocError;
use std::test::*;

#[test]
fn an_access_finds_the_word_and_leaves_another(rt: HostRuntime) -> Result<(), AllocError> {
    let mut words = Rows::new(rt.alloc());
    words.push(0_u64)?;
    words.push(7)?;
    assert_eq!(rt; perform(&mut words, Access::Add(1, 5)), 7);
    assert_eq!(rt; perform(&mut words, Access::Cas(1, 12, 4)), 12);
    assert_eq!(rt; perform(&mut words, Access::Cas(1, 12, 9)), 4);
    assert_eq!(rt; words.as_slice(), [0, 4].as_slice());
    Ok(())
}

#[test]
fn a_jump_back_looks_at_the_lock(rt: HostRuntime) {
    let jump = Effect::Goes(3, 0);
    assert_eq!(rt; wants(3, jump, Some(2070), true), Some(Access::Load(2070)));
    assert_eq!(rt; wants(2, jump, Some(2070), true), None);
    let store = Effect::Writes(Variable::Static(2070), 1);
    assert_eq!(rt; wants(0, store, None, true), Some(Access::Store(2070, 1)));
}
