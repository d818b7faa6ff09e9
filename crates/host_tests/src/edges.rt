//! The edge of the system: its files, files that give and fail as is said, and outputs.

use host_io::adapters::{FileShelf, OutputSink};
use host_io::shelf::{Shelf, ShelfError};
use host_io::sink::{Sink, SinkFailed};
use jvm_types::Bytes;
use std::alloc::Allocator;
use std::fs::{Metadata, OpenFile, OpenOptions};
use std::io::{ErrorKind, Read, Seek, SeekFrom, Write};
use std::rt::Files;
use std::sync::atomic::{AtomicU64, Ordering};
use std::test::*;
use std::{fmt, io};

fn unsupported<T>() -> io::Result<T> {
    Err(io::Error::from(ErrorKind::Unsupported))
}

/// A file of fives. A read gives so many of them at most, and fails where so many are left.
#[derive(Clone, Copy, Drop)]
struct Fives {
    left: usize,
    most: usize,
    fails_at: Option<usize>,
}

impl Read for Fives {
    fn read(&mut self, buf: &mut [u8]) -> io::Result<usize> {
        if self.fails_at == Some(self.left) {
            return Err(io::Error::from(ErrorKind::Other));
        }
        let count = self.most.min(self.left).min(buf.len());
        buf[..count].fill(5);
        self.left -= count;
        Ok(count)
    }
}

impl Write for Fives {
    fn write(&mut self, _buf: &[u8]) -> io::Result<usize> {
        Ok(0)
    }

    fn flush(&mut self) -> io::Result<()> {
        unsupported()
    }
}

impl Seek for Fives {
    fn seek(&mut self, _to: SeekFrom) -> io::Result<u64> {
        unsupported()
    }
}

impl OpenFile for Fives {
    fn metadata(&self) -> io::Result<Metadata> {
        unsupported()
    }

    fn set_len(&self, _size: u64) -> io::Result<()> {
        unsupported()
    }

    fn sync_all(&self) -> io::Result<()> {
        unsupported()
    }

    fn sync_data(&self) -> io::Result<()> {
        unsupported()
    }
}

impl Files for Fives {
    type File = Fives;

    type Dir = Fives;

    fn open_file(&self, _how: &OpenOptions, _path: &str) -> io::Result<Fives> {
        Ok(*self)
    }

    fn open_dir(&self, _path: &str) -> io::Result<Fives> {
        unsupported()
    }

    fn metadata(&self, _path: &str) -> io::Result<Metadata> {
        unsupported()
    }

    fn symlink_metadata(&self, _path: &str) -> io::Result<Metadata> {
        unsupported()
    }

    fn copy(&self, _from: &str, _to: &str) -> io::Result<u64> {
        unsupported()
    }

    fn rename(&self, _from: &str, _to: &str) -> io::Result<()> {
        unsupported()
    }

    fn remove_file(&self, _path: &str) -> io::Result<()> {
        unsupported()
    }

    fn create_dir(&self, _path: &str) -> io::Result<()> {
        unsupported()
    }

    fn remove_dir(&self, _path: &str) -> io::Result<()> {
        unsupported()
    }

    fn remove_dir_all<B: Allocator>(&self, _alloc: B, _path: &str) -> io::Result<()> {
        unsupported()
    }
}

/// What a shelf answers.
#[derive(Clone, Copy, Debug, PartialEq, Eq)]
enum Found {
    /// A file of so many fives.
    Fives(usize),
    Failed,
    TooLong,
    /// Anything else.
    Other,
}

fn found_of(answer: &Result<Bytes, ShelfError>) -> Found {
    match answer {
        Ok(content) if content.as_slice().iter().all(|five| *five == 5) => {
            Found::Fives(content.len())
        }
        Err(ShelfError::Failed) => Found::Failed,
        Err(ShelfError::TooLong) => Found::TooLong,
        _ => Found::Other,
    }
}

/// A file (how many fives, how many a read gives, how many are left where one fails), the limit
/// that it is read with, and what is answered.
type Reading = (usize, usize, Option<usize>, u64, Found);

const READ: [Reading; 9] = [
    (10000, 9999, None, 10000, Found::Fives(10000)),
    (10000, 1, None, 10000, Found::Fives(10000)),
    (8192, 4096, None, 8192, Found::Fives(8192)),
    (8193, 4096, None, 8192, Found::TooLong),
    (5000, 4096, None, 4096, Found::TooLong),
    (5000, 1000, Some(5000), 5000, Found::Failed),
    (5000, 1000, Some(2000), 5000, Found::Failed),
    (5000, 1000, Some(0), 5000, Found::Failed),
    (0, 1, None, 0, Found::Fives(0)),
];

#[test]
fn files_come_in_pieces(rt: HostRuntime) -> Result<(), Fail> {
    for (left, most, fails_at, limit, wanted) in READ {
        let file = Fives {
            left,
            most,
            fails_at,
        };
        let answer = FileShelf::new(&file).read_file(rt.alloc(), "A.class", limit);
        assert_eq!(rt; found_of(&answer), wanted);
    }
    Ok(())
}

/// An output that takes a byte of each piece, and notes their sum.
#[derive(Drop)]
struct Slow {
    sum: AtomicU64,
}

impl Print for Slow {
    fn print<D: fmt::Display + Drop>(&self, _value: D) -> io::Result<()> {
        unsupported()
    }

    fn println<D: fmt::Display + Drop>(&self, _value: D) -> io::Result<()> {
        unsupported()
    }

    fn write_all(&self, _bytes: &[u8]) -> io::Result<()> {
        unsupported()
    }

    fn write_some(&self, bytes: &[u8]) -> io::Result<usize> {
        match bytes.first() {
            Some(byte) => {
                self.sum.fetch_add(*byte as u64, Ordering::SeqCst);
                Ok(1)
            }
            None => Ok(0),
        }
    }
}

#[test]
fn an_output_may_take_a_byte_of_a_piece(rt: HostRuntime) {
    let slow = Slow {
        sum: AtomicU64::new(0),
    };
    assert!(rt; matches!(&OutputSink::new(&slow).write_some(&[7, 8]), Ok(1)));
    assert_eq!(rt; slow.sum.load(Ordering::SeqCst), 7);
}

/// An output that takes nothing.
struct Stuck;

impl Print for Stuck {
    fn print<D: fmt::Display + Drop>(&self, _value: D) -> io::Result<()> {
        Ok(())
    }

    fn println<D: fmt::Display + Drop>(&self, _value: D) -> io::Result<()> {
        Ok(())
    }

    fn write_all(&self, _bytes: &[u8]) -> io::Result<()> {
        Ok(())
    }

    fn write_some(&self, _bytes: &[u8]) -> io::Result<usize> {
        Ok(0)
    }
}

#[test]
fn files_and_outputs_of_the_system_fail(rt: HostRuntime) {
    let alloc = rt.alloc();
    let mut files = FileShelf::new(&rt);
    let empty = files.read_file(alloc, "/dev/null", 0);
    assert_eq!(rt; found_of(&empty), Found::Fives(0));
    let endless = files.read_file(alloc, "/dev/zero", 5000);
    assert_eq!(rt; found_of(&endless), Found::TooLong);
    let absent = files.read_file(alloc, "/dev/null/A.class", 5000);
    assert_eq!(rt; found_of(&absent), Found::Failed);
    assert!(rt; matches!(&OutputSink::new(&Stuck).write_some(&[53]), Err(SinkFailed)));
}
