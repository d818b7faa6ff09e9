//! Words that are read, and words that are not; and each option beside each mode.

use crate::command::read_words;
use std::alloc::{AllocError, Global};
use std::test::Fail;

// Words that are not read, each in a line of its own.
const NOT_READ: [&str; 69] = [
    "-x A.class",
    "A.class -x",
    "--help",
    "-h A.class",
    "--memory table A.class",
    "--threads 1",
    "--threads",
    "A.class --threads",
    "--threads 9 A.class",
    "--threads -1 A.class",
    "--threads one A.class",
    "--threads 1 --threads 1 A.class",
    "--mode load A.class",
    "--mode mark --mode mark A.class",
    "--order 0 A.class",
    "--order 129 A.class",
    "--order= A.class",
    "--steps 0 A.class",
    "--steps 4294967296 A.class",
    "--turns 0 A.class",
    "--heap 4095 A.class",
    "--heap 1048577 A.class",
    "--prints 0 A.class",
    "--prints 1048577 A.class",
    "--elide yes A.class",
    "--range 0 A.class",
    "--range 4294967296 A.class",
    "--order 12 --mode run A.class",
    "--mode mark --order 1 A.class",
    "--mode replay --memory locked A.class",
    "--mode mark --memory table A.class",
    "--mode run --memory none A.class",
    "--mode run --memory table --memory table A.class",
    "--mode list",
    "--mode list A.class A.class",
    "--mode list --order 1 A.class",
    "--mode list --memory table A.class",
    "--mode list --size 1 A.class",
    "--mode asm",
    "--mode asm A.class A.class",
    "--mode asm --order 1 A.class",
    "--mode asm --memory table A.class",
    "--size 1 A.class",
    "--mode cell A.class",
    "--mode cell --order 1",
    "--mode cell --memory table",
    "--mode cell --size 0",
    "--mode cell --size 1001",
    "--mode cell --threads 9",
    "--mode cell --seed 1",
    "--mode load --size 0",
    "--mode load --size 1001",
    "--mode load --seed 4294967296",
    "--mode load --seed -1",
    "--mode load --order 1",
    "--mode load --workers 1",
    "--mode load --memory none",
    "--mode record",
    "--mode record --events 0 A.class",
    "--mode record --events 100001 A.class",
    "--mode record --order 1 A.class",
    "--mode record --memory locked A.class",
    "--mode record --workers 1 A.class",
    "--mode run --workers 0 A.class",
    "--mode run --workers 9 A.class",
    "--mode run --turn 1 A.class",
    "--mode run --workers 1 --turn 0 A.class",
    "--mode run --workers 1 --turn 1000001 A.class",
    "--mode run --workers 1 --memory locked A.class",
];

// Words that are read.
const READ: [&str; 22] = [
    "A.class --threads 0 --order 18 --steps 6 --turns 1 --heap 4096 --prints 1 --elide off --range 1",
    "--threads=0 --steps=+0004294967295 --turns=4294967295 A.class",
    "--heap 1048576 --prints 1048576 --elide on --range 4294967295 --mode replay A.class",
    "--mode mark --threads 0 --heap 4096 A.class",
    "--mode mark --steps 1 --turns 1 --prints 1 --elide on --range 1 A.class",
    "A.class --mode run --threads 0 --steps 6 --turns 1 --heap 4096 --prints 1 --elide off --range 1",
    "--mode=run --memory=table A.class",
    "--memory locked --mode run A.class",
    "--mode list --threads 8 --heap 4096 --steps 1 --turns 1 --prints 1 --elide off --range 1 A.class",
    "--mode=list -- A.class",
    "--mode cell --threads 1 --size 1 --turns 1 --steps 1 --prints 1 --elide off --range 1 --heap 4096",
    "--mode=cell --size=1000",
    "--mode load",
    "--mode load --size 1 --seed 4294967295 --memory locked --threads 8 --elide off",
    "--mode=load --size=1000 --seed=0 --memory=table --heap 4096 --steps 1 --turns 1 --prints 1",
    "--mode record --threads 8 --events 1 A.class",
    "--mode=record --events=100000 --steps 1 --range 1 A.class",
    "--mode run --workers 8 --turn 1000000 A.class",
    "--workers=1 --turn=1 --mode=run --memory=table A.class",
    "-- A.class",
    "--mode=mark A.class",
    "A.class",
];

fn words_of(alloc: Global, line: &'static str) -> Result<Vec<&'static str>, AllocError> {
    line.split(' ').collect(alloc)
}

// Whether words are read, before which the name of the program stands.
fn are_read(alloc: Global, words: &[&str]) -> Result<bool, AllocError> {
    let mut all = Vec::new(alloc);
    all.push(String::from_str(alloc, "solero")?)?;
    for word in words {
        all.push(String::from_str(alloc, word)?)?;
    }
    Ok(read_words(alloc, all.as_slice())?.is_some())
}

// Whether the words of a line are read.
fn is_line_read(alloc: Global, line: &'static str) -> Result<bool, AllocError> {
    let words = words_of(alloc, line)?;
    are_read(alloc, words.as_slice())
}

#[test]
fn lines_of_words(rt: HostRuntime) -> Result<(), Fail> {
    for line in NOT_READ {
        assert!(rt; !is_line_read(rt.alloc(), line)?);
    }
    for line in READ {
        assert!(rt; is_line_read(rt.alloc(), line)?);
    }
    Ok(())
}

const MODES: [&str; 8] = [
    "replay", "run", "record", "mark", "list", "asm", "load", "cell",
];

// An option, and the modes that read it.
struct Beside {
    option: &'static str,
    modes: &'static [&'static str],
}

// Each option beside each mode.
const BESIDE: [Beside; 14] = [
    Beside {
        option: "--threads=8",
        modes: &MODES,
    },
    Beside {
        option: "--heap=4096",
        modes: &MODES,
    },
    Beside {
        option: "--order=1",
        modes: &["replay"],
    },
    Beside {
        option: "--memory=table",
        modes: &["run", "load"],
    },
    Beside {
        option: "--size=1",
        modes: &["load", "cell"],
    },
    Beside {
        option: "--seed=1",
        modes: &["load"],
    },
    Beside {
        option: "--events=1",
        modes: &["record"],
    },
    Beside {
        option: "--workers=1",
        modes: &["run"],
    },
    // It is read beside workers.
    Beside {
        option: "--turn=1",
        modes: &[],
    },
    Beside {
        option: "--steps=1",
        modes: &MODES,
    },
    Beside {
        option: "--turns=1",
        modes: &MODES,
    },
    Beside {
        option: "--prints=1",
        modes: &MODES,
    },
    Beside {
        option: "--elide=off",
        modes: &MODES,
    },
    Beside {
        option: "--range=1",
        modes: &MODES,
    },
];

// Whether the words of an option beside a mode are read. A load and a cell have no file.
fn is_read(alloc: Global, mode: &str, option: &str) -> Result<bool, AllocError> {
    if mode == "load" || mode == "cell" {
        are_read(alloc, &["--mode", mode, option])
    } else {
        are_read(alloc, &["--mode", mode, option, "A.class"])
    }
}

#[test]
fn options_beside_modes(rt: HostRuntime) -> Result<(), Fail> {
    for row in &BESIDE {
        for mode in MODES {
            let reads = row.modes.iter().any(|other| *other == mode);
            assert_eq!(rt; is_read(rt.alloc(), mode, row.option)?, reads);
        }
    }
    Ok(())
}
