//! Runs over files and sinks in memory.

use crate::program::top;
use host_io::shelf::{CalmShelf, ListShelf, NamedFile, Shelf, ShelfError};
use host_io::sink::{CalmSink, ListSink, Sink};
use jvm_types::{Bytes, OpenGate, Rows};
use std::alloc::{AllocError, Global};
use std::process::Abort;
use std::sync::Wait;
use std::test::Fail;
use std::thread::Threads;
use test_classes::{ADDS, PAIR, STORES_THIS, bytes_of};

const REPORT: &str = "5\ninit returned\ndone returned\n\
    counts 0 instructions 6 elided 0 failed 0 locked 0 inflated 0\n";

const USAGE: &str = "usage: solero [options] FILE...\n";

fn zeros(alloc: Global, count: usize) -> Result<Bytes, AllocError> {
    let zeros = vec![in alloc; 0u8; count]?;
    Bytes::from_slice(alloc, &zeros)
}

// A file with its name.
fn named(alloc: Global, name: &str, content: Bytes) -> Result<NamedFile, AllocError> {
    let name = Bytes::from_slice(alloc, name.as_bytes())?;
    Ok(NamedFile { name, content })
}

// One file of the name `A.class`.
fn one_file(alloc: Global, content: Bytes) -> Result<Rows<NamedFile>, AllocError> {
    let mut files = Rows::new(alloc);
    files.push(named(alloc, "A.class", content)?)?;
    Ok(files)
}

fn shelf_of(alloc: Global, content: &str, failing: &[u64]) -> Result<ListShelf, AllocError> {
    let files = one_file(alloc, bytes_of(alloc, content)?)?;
    Ok(ListShelf::new(files, Rows::from_slice(alloc, failing)?))
}

// Runs the program of these words, before which its name stands.
fn run<R: Threads + Wait + Sync + AllocGlobal, S: Shelf, K: Sink>(
    rt: &R,
    words: &[&str],
    shelf: &mut S,
    sink: &mut K,
) -> Result<u8, AllocError> {
    let alloc = rt.alloc();
    let mut all = Vec::new(alloc);
    all.push(String::from_str(alloc, "solero")?)?;
    for word in words {
        all.push(String::from_str(alloc, word)?)?;
    }
    Ok(top(rt, alloc, &all, shelf, sink, &OpenGate))
}

// A run over one file `A.class`, with what it has to come to.
struct Case {
    words: &'static [&'static str],
    // The class, two digits for each byte.
    content: &'static str,
    // The numbers of the calls of the shelf that fail.
    failing: &'static [u64],
    status: u8,
    text: &'static str,
}

// Runs the case over a sink, and compares.
fn check<R: Abort + Threads + Wait + Sync + AllocGlobal>(
    rt: &R,
    mut sink: ListSink,
    case: &Case,
) -> Result<(), AllocError> {
    let mut shelf = shelf_of(rt.alloc(), case.content, case.failing)?;
    let status = run(rt, case.words, &mut shelf, &mut sink)?;
    assert_eq!(rt; sink.text().as_slice(), case.text.as_bytes());
    assert_eq!(rt; status, case.status);
    Ok(())
}

fn check_all<R: Abort + Threads + Wait + Sync + AllocGlobal>(
    rt: &R,
    cases: &[Case],
) -> Result<(), AllocError> {
    for case in cases {
        check(rt, ListSink::new(rt.alloc(), None, 4096), case)?;
    }
    Ok(())
}

const CASES: [Case; 23] = [
    // Words that are not read.
    Case {
        words: &[],
        content: ADDS,
        failing: &[],
        status: 2,
        text: USAGE,
    },
    Case {
        words: &["A.class"; 65],
        content: ADDS,
        failing: &[],
        status: 2,
        text: USAGE,
    },
    // The shelf fails at a file, or has none of that name.
    Case {
        words: &["A.class"],
        content: ADDS,
        failing: &[1],
        status: 4,
        text: "cannot read file 0\n",
    },
    Case {
        words: &["B.class"],
        content: ADDS,
        failing: &[],
        status: 4,
        text: "cannot read file 0\n",
    },
    Case {
        words: &["A.class", "A.class"],
        content: ADDS,
        failing: &[2],
        status: 4,
        text: "cannot read file 1\n",
    },
    Case {
        words: &["A.class"; 64],
        content: ADDS,
        failing: &[64],
        status: 4,
        text: "cannot read file 63\n",
    },
    // It is not asked again.
    Case {
        words: &["A.class"],
        content: ADDS,
        failing: &[2],
        status: 0,
        text: REPORT,
    },
    // Files that are refused.
    Case {
        words: &["A.class", "A.class"],
        content: ADDS,
        failing: &[],
        status: 3,
        text: "refused L5 file 1 at 0\n",
    },
    Case {
        words: &["--threads", "1", "A.class"],
        content: ADDS,
        failing: &[],
        status: 3,
        text: "refused L4 file 0 at 0\n",
    },
    Case {
        words: &["--mode", "run", "--threads", "1", "A.class"],
        content: ADDS,
        failing: &[],
        status: 3,
        text: "refused L4 file 0 at 0\n",
    },
    Case {
        words: &["A.class"],
        content: "",
        failing: &[],
        status: 3,
        text: "refused C3 file 0 at 0\n",
    },
    Case {
        words: &["A.class"],
        content: "cafebabe00000033",
        failing: &[],
        status: 3,
        text: "refused C2 file 0 at 6\n",
    },
    // Marks.
    Case {
        words: &["--mode", "mark", "A.class"],
        content: ADDS,
        failing: &[],
        status: 0,
        text: "",
    },
    Case {
        words: &["--mode", "mark", "A.class"],
        content: PAIR,
        failing: &[],
        status: 0,
        text: "P.set(I)V method M1\nP.sum()I block 3 M0\n",
    },
    Case {
        words: &["--mode", "mark", "A.class"],
        content: STORES_THIS,
        failing: &[],
        status: 0,
        text: "K.get()I method M5\n",
    },
    // A run of a load.
    Case {
        words: &["--mode", "load", "--size", "3", "--threads", "2"],
        content: ADDS,
        failing: &[1],
        status: 0,
        text: "load size 3 seed 0\n402\n0\ninit returned\nthread 1 returned\nthread 2 returned\ndone returned\n",
    },
    // Runs of a cell, each worker of which makes so many writes and reads.
    Case {
        words: &["--mode", "cell"],
        content: ADDS,
        failing: &[1],
        status: 0,
        text: "cell threads 0 size 100\nwrites 0\nreads 0\nstopped 0\n",
    },
    Case {
        words: &["--mode", "cell", "--threads", "4", "--size", "10"],
        content: ADDS,
        failing: &[1],
        status: 0,
        text: "cell threads 4 size 10\nwrites 40\nreads 40\nstopped 0\n",
    },
    // Texts that are not assembled: none, and one that is a class file.
    Case {
        words: &["--mode", "asm", "A.class"],
        content: "",
        failing: &[],
        status: 3,
        text: "refused A1 file 0 at 1\n",
    },
    Case {
        words: &["--mode", "asm", "--threads", "1", "A.class"],
        content: ADDS,
        failing: &[],
        status: 3,
        text: "refused A1 file 0 at 1\n",
    },
    Case {
        words: &["--mode", "asm", "A.class"],
        content: ADDS,
        failing: &[1],
        status: 4,
        text: "cannot read file 0\n",
    },
    // Files that are not listed.
    Case {
        words: &["--mode", "list", "A.class"],
        content: "cafebabe00000033",
        failing: &[],
        status: 3,
        text: "refused C2 file 0 at 6\n",
    },
    Case {
        words: &["--mode", "list", "A.class"],
        content: ADDS,
        failing: &[1],
        status: 4,
        text: "cannot read file 0\n",
    },
];

#[test]
fn cases(rt: HostRuntime) -> Result<(), Fail> {
    check_all(&rt, &CASES)?;
    Ok(())
}

// A class, and a file that is one byte too long.
fn one_too_long(alloc: Global) -> Result<Rows<NamedFile>, AllocError> {
    let mut files = one_file(alloc, bytes_of(alloc, ADDS)?)?;
    files.push(named(alloc, "long", zeros(alloc, 1_048_577)?)?)?;
    Ok(files)
}

#[test]
fn a_file_that_is_too_long_is_refused(rt: HostRuntime) -> Result<(), Fail> {
    let alloc = rt.alloc();
    let mut calm = CalmShelf::new(one_too_long(alloc)?);
    let mut sink = ListSink::new(alloc, None, 4096);
    assert_eq!(rt; run(&rt, &["A.class", "long"], &mut calm, &mut sink)?, 3);
    let refused = "refused C10 file 1 at 1048576\n";
    assert_eq!(rt; sink.text().as_slice(), refused.as_bytes());
    Ok(())
}

#[test]
fn no_file_is_read_behind_one_that_is_too_long(rt: HostRuntime) -> Result<(), Fail> {
    let alloc = rt.alloc();
    let failing = Rows::from_slice(alloc, &[2])?;
    let mut list = ListShelf::new(one_too_long(alloc)?, failing);
    let mut sink = ListSink::new(alloc, None, 4096);
    assert_eq!(rt; run(&rt, &["long", "A.class"], &mut list, &mut sink)?, 3);
    let refused = "refused C10 file 0 at 1048576\n";
    assert_eq!(rt; sink.text().as_slice(), refused.as_bytes());
    Ok(())
}

const WHOLE: Case = Case {
    words: &["A.class"],
    content: ADDS,
    failing: &[],
    status: 0,
    text: REPORT,
};

const CUT: Case = Case {
    words: &["A.class"],
    content: ADDS,
    failing: &[],
    status: 5,
    text: "5\ninit ",
};

#[test]
fn a_sink_may_take_any_part(rt: HostRuntime) -> Result<(), Fail> {
    check(&rt, ListSink::new(rt.alloc(), None, 1), &WHOLE)?;
    check(&rt, ListSink::new(rt.alloc(), Some(7), 4096), &CUT)?;
    Ok(())
}

fn is_content(answer: &Result<Bytes, ShelfError>, content: &[u8]) -> bool {
    match answer {
        Ok(found) => found.as_slice() == content,
        Err(_) => false,
    }
}

#[test]
fn shelves_give_their_files(rt: HostRuntime) -> Result<(), Fail> {
    let alloc = rt.alloc();
    let bytes = [0xca, 0xfe];
    let mut list = shelf_of(alloc, "cafe", &[2])?;
    assert!(rt; is_content(&list.read_file(alloc, "A.class", 2), &bytes));
    assert!(rt;
        matches!(
            &list.read_file(alloc, "A.class", 2),
            Err(ShelfError::Failed)
        )
    );
    assert!(rt;
        matches!(
            &list.read_file(alloc, "A.class", 1),
            Err(ShelfError::TooLong)
        )
    );
    let mut calm = CalmShelf::new(one_file(alloc, bytes_of(alloc, "cafe")?)?);
    assert!(rt; is_content(&calm.read_file(alloc, "A.class", 2), &bytes));
    assert!(rt; is_content(&calm.read_file(alloc, "B.class", 2), &[]));
    Ok(())
}
