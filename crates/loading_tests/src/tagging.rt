//! The lock tags of compiled classes. Methods and their instructions go by their numbers.

ghost use Rattle.std.specs.Prelude.{◌<◌, ◌≤◌, length};

use crate::files::one;
use checked_program::{Checked, Tag};
use class_runner::{FileError, link_files, read_files, tag_files, verify_files};
use guard_analysis::mark;
use jvm_types::Bytes;
use jvm_types::limits::LEAST_HEAP;
use std::alloc::Global;
use std::process::Abort;
use std::test::*;
use test_classes::{changed, marks, pair};

/// The checked program of some files.
fn load(alloc: Global, files: &[Bytes]) -> Result<Checked, FileError>
    requires some { 0 < length files.now }
    requires few { length files.now ≤ 64 }
{
    let classes = read_files(alloc, files)?;
    let program = link_files(alloc, &classes, LEAST_HEAP, 0)?;
    let typings = verify_files(alloc, classes.as_slice(), &program)?;
    let tags = tag_files(alloc, classes.as_slice(), &program)?;
    let marks = mark(alloc, &program, &tags)?;
    Ok(Checked::of(program, typings, tags, marks))
}

/// The tag of the innermost monitor before an instruction; `None` where none is held, or the
/// instruction is not reached.
fn innermost(program: &Checked, method: usize, insn: usize) -> Option<Tag> {
    match program.tags().get(method) {
        Some(tags) => match tags.frames.get(insn) {
            Some(Some(frame)) => frame.held().get(0).copied(),
            _ => None,
        },
        None => None,
    }
}

/// The tag on the top of the stack before an instruction.
fn top(program: &Checked, method: usize, insn: usize) -> Option<Tag> {
    match program.tags().get(method) {
        Some(tags) => match tags.frames.get(insn) {
            Some(Some(frame)) => frame.stack().get(0).copied(),
            _ => None,
        },
        None => None,
    }
}

/// Compares what a method of a class holds, and has on its stack, before some instructions.
fn check_tags(
    rt: &(impl Abort + AllocGlobal),
    hex: &str,
    method: usize,
    held: &[(usize, Option<Tag>)],
    tops: &[(usize, Tag)],
) -> Result<(), FileError> {
    let alloc = rt.alloc();
    let files = one(alloc, changed(alloc, hex, &[])?)?;
    let program = load(alloc, files.as_slice())?;
    for (insn, tag) in held {
        assert!(rt; innermost(&program, method, *insn) == *tag);
    }
    for (insn, tag) in tops {
        assert!(rt; top(&program, method, *insn) == Some(*tag));
    }
    Ok(())
}

#[test]
fn blocks_are_tagged(rt: HostRuntime) -> Result<(), Fail> {
    // `P.sum`, a block on `this` that ends at the return and in its handler
    let held = [
        (3, None),
        (4, Some(Tag::This)),
        (11, None),
        (12, Some(Tag::This)),
        (16, None),
    ];
    let tops = [
        (11, Tag::Untagged),
        (12, Tag::Untagged),
        (16, Tag::Untagged),
    ];
    check_tags(&rt, pair(), 2, &held, &tops)?;
    // `Marks.onKey`, a block on a field, which the `dup` at pc 4 tags
    let held = [(4, None), (5, Some(Tag::At(4))), (9, None)];
    let tops = [(2, Tag::Untagged), (3, Tag::At(4))];
    check_tags(&rt, marks(), 19, &held, &tops)?;
    Ok(())
}
