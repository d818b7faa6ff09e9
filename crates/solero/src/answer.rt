ghost use Rattle.run_texts.specs.Refusal.{refusal_text};
ghost use Rattle.solero.specs.Parts.{IsRefusalLine, IsUnreadDue};
ghost use Rattle.host_io.specs.declared.shelf.ShelfError.TheVariants.{TooLong};

use class_runner::refusal;
use jvm_types::limits::MOST_FILE_BYTES;
use jvm_types::{CRule, Place, Rule, in_file};
use program_answers::answer::Due;
use std::alloc::{AllocError, Global};

/// The line of use.
pub const USAGE: &str = "usage: solero [options] FILE...\n";

/// The line of a refusal is due, or want of memory.
pub fn refused(alloc: Global, rule: Rule, place: Place) -> Due
    ensures { IsRefusalLine (refusal_text rule place) result }
{
    match refusal(alloc, rule, place) {
        Ok(line) => Due::Refusal(line),
        Err(AllocError) => Due::OutOfMemory,
    }
}

/// The file of that number is too long to be a class file.
pub fn too_long(alloc: Global, file: u16) -> Due
    ensures { IsUnreadDue file TooLong result }
{
    refused(
        alloc,
        Rule::C(CRule::C10),
        in_file(file, MOST_FILE_BYTES as u32),
    )
}
