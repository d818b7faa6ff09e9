//! What is read from class files.

use class_reader::read_class;
use jvm_types::{Code, Constant, Member, MemberAttr};
use std::test::*;
use test_classes::{changed, constants};

fn code_of(member: &Member) -> Option<&Code> {
    match member.attrs.get(0) {
        Some(MemberAttr::Code(code)) => Some(code),
        _ => None,
    }
}

#[test]
fn reads_what_javac_writes(rt: HostRuntime) -> Result<(), Fail> {
    let file = changed(rt.alloc(), constants(), &[])?;
    let class = read_class(rt.alloc(), &file).ok().ok_or("a class")?;
    let pool = &class.constants;
    assert!(rt; matches!(pool.get(14), Some(Constant::Integer(-2))));
    assert!(rt; matches!(pool.get(17), Some(Constant::Long(5))));
    assert!(rt; matches!(pool.get(18), Some(Constant::Gap)));
    assert!(rt; matches!(pool.get(21), Some(Constant::Double(0x3FF8_0000_0000_0000))));
    let divides = class.methods.get(1).ok_or("a method")?;
    let code = code_of(divides).ok_or("a code")?;
    let row = code.rows.get(0).ok_or("a row")?;
    assert_eq!(rt;
        (row.start, row.end, row.handler, row.catch_type),
        (0, 4, 5, 7)
    );
    let map = code.attrs.get(0).ok_or("an attribute")?;
    assert_eq!(rt; (map.name, map.body.len()), (30, 6));
    Ok(())
}
