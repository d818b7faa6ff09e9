//! The shelf and the sink of the system: real files, and the standard output.
ghost use Rattle.std.specs.Prelude.{◌≡◌, ◌<◌, ◌≤◌, None, IfOk, IfSome, length};

use crate::shelf::{Shelf, ShelfError};
use crate::sink::{Sink, SinkFailed};
use jvm_types::Bytes;
use std::alloc::Global;
use std::fs::File;
use std::io::Read;
use std::rt::Files;

/// How many bytes of a file are read at once, at most.
const CHUNK: usize = 4096;

/// The files of the system, by their paths. It does not tell them, and counts each error as a
/// fault.
#[derive(Drop)]
pub struct FileShelf<'a, R: Files> {
    rt: &'a R,
    faults: u64,
}

impl<'a, R: Files> FileShelf<'a, R> {
    pub fn new(rt: &'a R) -> Self
        ensures { result.faults ≡ 0 }
    {
        FileShelf { rt, faults: 0 }
    }
}

impl<'a, R: Files> Shelf for FileShelf<'a, R> {
    ghost files = { λ _. None };

    ghost faults = { λ s. s.faults };

    ghost unreadable = { λ _. None };

    fn read_file(&mut self, alloc: Global, name: &str, limit: u64) -> Result<Bytes, ShelfError> {
        let content = read_path(self.rt, alloc, name, limit);
        if let Err(ShelfError::Failed) = content {
            self.faults = self.faults.saturating_add(1);
        }
        content
    }
}

// The content of the file at a path.
fn read_path<R: Files>(rt: &R, alloc: Global, path: &str, limit: u64) -> Result<Bytes, ShelfError>
    ensures { IfOk result (λ content. length content ≤ limit) }
{
    match File::open(rt, path) {
        Ok(mut file) => read_within(&mut file, alloc, limit),
        Err(_) => Err(ShelfError::Failed),
    }
}

// All that is left to read, where that is at most `limit` bytes. Of more, no more than a chunk is
// read.
fn read_within<F: Read>(file: &mut F, alloc: Global, limit: u64) -> Result<Bytes, ShelfError>
    ensures within { IfOk result (λ content. length content ≤ limit) }
    ensures whole { IfOk result (λ content.
        IfSome (F.remaining file.old) (λ bytes. content ≡ bytes)) }
    ensures too_long { result ≡ Err ShelfError.TooLong →
        IfSome (F.remaining file.old) (λ bytes. limit < length bytes) }
{
    let mut content = Bytes::new(alloc);
    let mut chunk = [0; CHUNK];
    loop {
        let count = match file.read(&mut chunk) {
            Ok(0) => return Ok(content),
            Ok(count) => count,
            Err(_) => return Err(ShelfError::Failed),
        };
        if count as u64 > limit - content.len() as u64 {
            return Err(ShelfError::TooLong);
        }
        content.extend_from_slice(&chunk[..count])?;
    }
}

/// The standard output. It does not tell its text, and counts each error and each write of no bytes
/// as a fault.
#[derive(Drop)]
pub struct OutputSink<'a, P: Print> {
    output: &'a P,
    faults: u64,
}

impl<'a, P: Print> OutputSink<'a, P> {
    pub fn new(output: &'a P) -> Self
        ensures { result.faults ≡ 0 }
    {
        OutputSink { output, faults: 0 }
    }
}

impl<'a, P: Print> Sink for OutputSink<'a, P> {
    ghost text = { λ _. None };

    ghost faults = { λ s. s.faults };

    fn write_some(&mut self, piece: &[u8]) -> Result<usize, SinkFailed> {
        match self.output.write_some(piece) {
            Ok(count) if count > 0 => Ok(count),
            _ => {
                self.faults = self.faults.saturating_add(1);
                Err(SinkFailed)
            }
        }
    }
}
