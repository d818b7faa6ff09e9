//! The fifth pass: the words that the machine needs from the start on.

ghost use Rattle.std.specs.Prelude.{◌≡◌, ◌≤◌, length};
ghost use Rattle.std.specs.Result.{result_err};
ghost use Rattle.jvm_types.specs.Layout.{static_count, fixed_words};
ghost use Rattle.jvm_types.specs.LinkFaults.{word_pass as fifth_pass};
ghost use Rattle.link_scope.specs.Scoping.{AreFiles};

use crate::places::Fault;
use jvm_types::fixed_words::{FIRST_CLASS_WORD, OBJECT_HEAD_WORDS};
use jvm_types::flags::is_static;
use jvm_types::{ClassFile, LRule, Member, in_file};
use link_scope::Scope;

/// How many of some fields are static.
fn static_count(fields: &[Member]) -> usize
    ensures count { result ≡ static_count fields.now }
    ensures few { result ≤ length fields.now }
{
    let mut count = 0;
    for field in fields {
        if is_static(field.flags) {
            count += 1;
        }
    }
    count
}

/// The words of the machine, and of each class its lock word, its header and its static fields.
fn fixed_words(files: &[ClassFile]) -> usize
    requires { AreFiles files.now }
    ensures { result ≡ fixed_words files.now }
{
    let mut words = FIRST_CLASS_WORD as usize;
    for class in files {
        words += OBJECT_HEAD_WORDS as usize + static_count(class.fields.as_slice());
    }
    words
}

/// The fifth pass: L8.
pub fn word_pass(scope: &Scope<'_>, heap: u32) -> Result<(), Fault>
    ensures { result_err result ≡ fifth_pass scope.now heap }
{
    if fixed_words(scope.files().as_slice()) > heap as usize {
        Err((LRule::L8, in_file(0, 0)))
    } else {
        Ok(())
    }
}
