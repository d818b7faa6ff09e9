//! Files that are read from a shelf, by their names, in order.
ghost use Rattle.std.specs.Prelude.{◌≡◌, ◌≤◌, length, map, IfOk, IfErr, string_bytes};
ghost use Rattle.host_io.specs.Reading.{AreFilesRead, FailsWhereTold, IsUnread, IsNextRead};

use crate::shelf::{Shelf, ShelfError};
use jvm_types::limits::{MOST_FILE_BYTES, MOST_FILES};
use jvm_types::{Bytes, Rows};
use std::alloc::Global;

/// The first file that was not read.
#[derive(Clone, Copy, Debug)]
pub struct Unread {
    /// Its number, counted from 0.
    pub file: u16,
    /// Why it was not read.
    pub error: ShelfError,
}

/// The contents of the files of these names, in order, or the first that is not read: the shelf
/// fails, the file is too long, or memory runs out.
pub fn read_files<S: Shelf>(
    alloc: Global,
    names: &[String],
    shelf: &mut S,
) -> Result<Rows<Bytes>, Unread>
    requires { length names.now ≤ MOST_FILES }
    ensures files { S.files shelf.new ≡ S.files shelf.old }
    ensures unreadable { S.unreadable shelf.new ≡ S.unreadable shelf.old }
    ensures ok { IfOk result (λ contents.
        AreFilesRead (S.files shelf.old) (map (λ n. string_bytes n) names.now) (S.faults shelf.old)
        (S.faults shelf.new) contents) }
    ensures err { IfErr result (λ unread.
        IsUnread (S.files shelf.old) (S.unreadable shelf.old) (map (λ n. string_bytes n) names.now)
        (S.faults shelf.old) (S.faults shelf.new) unread.file unread.error) }
{
    let mut contents = Rows::new(alloc);
    for (file, name) in names.iter().enumerate() {
        if let Err(error) = read_next(alloc, name.as_str(), shelf, &mut contents) {
            let file = file as u16;
            return Err(Unread { file, error });
        }
    }
    Ok(contents)
}

// Adds the content of the file of that name.
fn read_next<S: Shelf>(
    alloc: Global,
    name: &str,
    shelf: &mut S,
    contents: &mut Rows<Bytes>,
) -> Result<(), ShelfError>
    ensures files { S.files shelf.new ≡ S.files shelf.old }
    ensures unreadable { S.unreadable shelf.new ≡ S.unreadable shelf.old }
    ensures answer { IsNextRead (S.files shelf.old) name.now (S.faults shelf.old)
        (S.faults shelf.new) contents.old contents.new result }
    ensures fails { FailsWhereTold (S.unreadable shelf.old) name.now result }
{
    let content = shelf.read_file(alloc, name, MOST_FILE_BYTES as u64)?;
    contents.push(content)?;
    Ok(())
}
