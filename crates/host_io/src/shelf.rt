ghost use Rattle.std.specs.Prelude.{◌≡◌, ◌≢◌, ◌↔◌, ◌<◌, ◌≤◌, ℕ, Bool, false, List, Option, Some};
ghost use Rattle.std.specs.Prelude.{None, IsTrue, IfOk, IfSome, length};
ghost use Rattle.std.specs.Option.{option_copied};
ghost use Rattle.host_io.specs.Shelf.{FailsBy, IsRead, file_of, content_of};
ghost use Rattle.host_io.specs.ListShelf.{is_failing, after_reading, unreadable_of};
ghost use Rattle.host_io.specs.declared.shelf.NamedFile.{NamedFile as File};
ghost use Rattle.host_io.specs.declared.shelf.ShelfError.TheVariants.{Memory};

use jvm_types::{Bytes, Rows};
use std::alloc::{AllocError, Global};
use std::marker::Model;

/// Why a file was not read.
#[derive(Clone, Copy, Debug, PartialEq, Eq)]
pub enum ShelfError {
    /// Memory ran out.
    Memory,
    /// The shelf failed, or has no such file.
    Failed,
    /// The file is longer than the limit.
    TooLong,
}

impl From<AllocError> for ShelfError {
    ghost from_gives = { λ _ e. e ≡ Memory };

    fn from(_error: AllocError) -> Self {
        ShelfError::Memory
    }
}

/// Where files are read from.
pub trait Shelf {
    /// The files, of which the first of a name counts; `None` where the shelf does not tell them.
    ghost files: { Self → Option (List File) };

    /// How often the shelf has failed.
    ghost faults: { Self → ℕ };

    /// Of which names it can't read a file; `None` where the shelf does not tell it.
    ghost unreadable: { Self → Option (List ℕ → Bool) };

    /// The content of the file of that name, of at most `limit` bytes.
    fn read_file(&mut self, alloc: Global, name: &str, limit: u64) -> Result<Bytes, ShelfError>
        ensures files { files self.new ≡ files self.old }
        ensures unreadable { unreadable self.new ≡ unreadable self.old }
        ensures answer { IsRead (files self.old) name.now limit
            (faults self.old) (faults self.new) result }
        ensures fails { IfSome (unreadable self.old) (λ test. FailsBy (test name.now) result) };
}

/// A file with its name.
#[derive(Debug, Drop)]
pub struct NamedFile {
    pub name: Bytes,
    pub content: Bytes,
}

// The first file of that name.
fn file_named<'a>(files: &'a Rows<NamedFile>, name: &str) -> Option<&'a NamedFile>
    ensures { option_copied result ≡ file_of files.now name.now }
{
    files
        .as_slice()
        .iter()
        .find(|file| file.name.as_slice() == name.as_bytes())
}

// A copy of the content, where it has at most `limit` bytes.
fn copied_within(alloc: Global, content: &Bytes, limit: u64) -> Result<Bytes, ShelfError>
    ensures ok { IfOk result (λ copy. (copy ≡ content.now) × (length copy ≤ limit)) }
    ensures too_long { (result ≡ Err ShelfError.TooLong) → limit < length content.now }
    ensures failed { result ≢ Err ShelfError.Failed }
{
    if content.len() as u64 > limit {
        return Err(ShelfError::TooLong);
    }
    Ok(Bytes::from_slice(alloc, content.as_slice())?)
}

/// Files in memory. The calls fail whose numbers are on a list, and those that name no file.
#[derive(Debug, Drop)]
pub struct ListShelf {
    files: Rows<NamedFile>,
    failing: Rows<u64>,
    calls: u64,
    faults: u64,
}

impl Model for ListShelf {
    ghost use Rattle.host_io.specs.ListShelf.{Listed};

    ghost Value = { Listed };

    ghost view = { λ s. record {
      files = s.files;
      failing = s.failing;
      calls = s.calls;
      faults = s.faults;
    } };
}

impl ListShelf {
    /// `failing` has the numbers of the calls that fail, counted from 1.
    pub fn new(files: Rows<NamedFile>, failing: Rows<u64>) -> Self
        ensures { result ≡ record { files = files; failing = failing; calls = 0; faults = 0 } }
    {
        ListShelf {
            files,
            failing,
            calls: 0,
            faults: 0,
        }
    }
}

impl Shelf for ListShelf {
    ghost files = { λ s. Some s.files };

    ghost faults = { λ s. s.faults };

    ghost unreadable = { λ s. unreadable_of s.files s.failing };

    fn read_file(&mut self, alloc: Global, name: &str, limit: u64) -> Result<Bytes, ShelfError>
        ensures files { self.new.files ≡ self.old.files }
        ensures unreadable { self.new.failing ≡ self.old.failing }
        ensures answer { IsRead (Some self.old.files) name.now limit
            self.old.faults self.new.faults result }
        ensures fails { IfSome (unreadable_of self.old.files self.old.failing)
            (λ test. FailsBy (test name.now) result) }
        // Which calls fail, and what they leave.
        ensures failed { (result ≡ Err ShelfError.Failed) ↔ IsTrue (is_failing self.old name.now) }
        ensures after { self.new ≡ after_reading self.old name.now }
    {
        self.calls = self.calls.saturating_add(1);
        let call = self.calls;
        match file_named(&self.files, name) {
            Some(file) if !self.failing.as_slice().contains(&call) => {
                copied_within(alloc, &file.content, limit)
            }
            _ => {
                self.faults = self.faults.saturating_add(1);
                Err(ShelfError::Failed)
            }
        }
    }
}

/// Files in memory, of which each that is not there is empty. It never fails.
#[derive(Debug, Drop)]
pub struct CalmShelf {
    files: Rows<NamedFile>,
}

impl Model for CalmShelf {
    ghost use Rattle.std.specs.Prelude.{List};
    ghost use Rattle.host_io.specs.declared.shelf.NamedFile.{NamedFile};

    ghost Value = { List NamedFile };

    ghost view = { λ s. s.files };
}

impl CalmShelf {
    pub fn new(files: Rows<NamedFile>) -> Self
        ensures { result ≡ files }
    {
        CalmShelf { files }
    }
}

impl Shelf for CalmShelf {
    ghost files = { λ s. Some s };

    ghost faults = { λ _. 0 };

    ghost unreadable = { λ _. Some (λ _. false) };

    fn read_file(&mut self, alloc: Global, name: &str, limit: u64) -> Result<Bytes, ShelfError>
        ensures files { self.new ≡ self.old }
        ensures answer { IsRead (Some self.old) name.now limit 0 0 result }
        ensures fails { FailsBy false result }
    {
        match file_named(&self.files, name) {
            Some(file) => copied_within(alloc, &file.content, limit),
            None => Ok(Bytes::new(alloc)),
        }
    }
}
