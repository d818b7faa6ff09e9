//! Runs on threads of the system, with what holds of them in every order.

use crate::meeting::MeetingGate;
use crate::row_tests::{answer, options_alone, words};
use jvm_types::Gate;
use std::alloc::{AllocError, Global};
use std::process::Abort;
use std::sync::Wait;
use std::sync::atomic::{AtomicU64, Ordering};
use std::test::Fail;
use std::thread::{Threads, yield_now};
use test_classes::{
    ADDS, ADDS_TWICE, BANK, CLASS_PAIR, LOCKS_OUT, ROUNDS, SHARED, SHARED_AND_DONE, SPINS, WAITS,
    bytes_of,
};

/// A status, and how the report begins that goes with it: all that stands before its counts.
type End = (u8, &'static str);

/// A run over one class, with each end that some order leads to.
struct ThreadRun {
    options: &'static [&'static str],
    /// The class, two digits for each byte.
    class: &'static str,
    ends: &'static [End],
}

const RUNS: [ThreadRun; 12] = [
    // No worker.
    ThreadRun {
        options: &[],
        class: ADDS,
        ends: &[(0, "5\ninit returned\ndone returned\n")],
    },
    // Each thread spins until the other one has written.
    ThreadRun {
        options: &["--threads", "2", "--steps", "200000000"],
        class: SPINS,
        ends: &[(
            0,
            "init returned\nthread 1 returned\nthread 2 returned\ndone returned\n",
        )],
    },
    // Sums.
    ThreadRun {
        options: &["--threads", "4"],
        class: BANK,
        ends: &[(
            0,
            "10000\ninit returned\nthread 1 returned\nthread 2 returned\nthread 3 returned\n\
                thread 4 returned\ndone returned\n",
        )],
    },
    // More threads than there are processors.
    ThreadRun {
        options: &["--threads", "8", "--elide", "off"],
        class: BANK,
        ends: &[(
            0,
            "36000\ninit returned\nthread 1 returned\nthread 2 returned\nthread 3 returned\n\
                thread 4 returned\nthread 5 returned\nthread 6 returned\nthread 7 returned\n\
                thread 8 returned\ndone returned\n",
        )],
    },
    // A section reads both fields, before or behind the section that sets both to 4.
    ThreadRun {
        options: &["--threads", "2"],
        class: SHARED_AND_DONE,
        ends: &[
            (
                0,
                "0\n8\ninit returned\nthread 1 returned\nthread 2 returned\ndone returned\n",
            ),
            (
                0,
                "8\n8\ninit returned\nthread 1 returned\nthread 2 returned\ndone returned\n",
            ),
        ],
    },
    // So does a section on a class.
    ThreadRun {
        options: &["--threads", "2"],
        class: CLASS_PAIR,
        ends: &[
            (
                0,
                "0\ninit returned\nthread 1 returned\nthread 2 returned\ndone returned\n",
            ),
            (
                0,
                "8\ninit returned\nthread 1 returned\nthread 2 returned\ndone returned\n",
            ),
        ],
    },
    // Four threads wait for each other by turns.
    ThreadRun {
        options: &["--threads", "4"],
        class: ROUNDS,
        ends: &[(
            1,
            "4\n3\n2\n1\n4\n3\n2\n1\n4\n3\n2\n1\n4\ninit returned\nthread 1 returned\n\
                thread 2 returned\nthread 3 returned\nthread 4 returned\n\
                done uncaught java/lang/IllegalMonitorStateException\n",
        )],
    },
    // The first instruction that is too many, of `init` and of a worker.
    ThreadRun {
        options: &["--steps", "5"],
        class: ADDS,
        ends: &[(7, "5\ninit steps\ndone not run\n")],
    },
    ThreadRun {
        options: &["--threads", "1", "--steps", "1000"],
        class: SPINS,
        ends: &[(7, "init returned\nthread 1 steps\ndone not run\n")],
    },
    // The first print that is too many.
    ThreadRun {
        options: &["--prints", "1"],
        class: ADDS_TWICE,
        ends: &[(7, "5\ninit prints\ndone not run\n")],
    },
    // Nobody notifies the thread that waits.
    ThreadRun {
        options: &["--threads", "1", "--turns", "50"],
        class: WAITS,
        ends: &[(7, "init returned\nthread 1 turns\ndone not run\n")],
    },
    // Each of two threads may hold the monitor that the other one wants.
    ThreadRun {
        options: &["--threads", "2", "--turns", "1000"],
        class: LOCKS_OUT,
        ends: &[
            (
                0,
                "init returned\nthread 1 returned\nthread 2 returned\ndone returned\n",
            ),
            (
                7,
                "init returned\nthread 1 turns\nthread 2 returned\ndone not run\n",
            ),
            (
                7,
                "init returned\nthread 1 returned\nthread 2 turns\ndone not run\n",
            ),
            (
                7,
                "init returned\nthread 1 turns\nthread 2 turns\ndone not run\n",
            ),
        ],
    },
];

/// Runs whose threads have turns.
const FEW: [ThreadRun; 3] = [
    // Each worker gives turns to the end, or the first thread would spin with nobody to write.
    ThreadRun {
        options: &[
            "--threads",
            "2",
            "--workers",
            "2",
            "--turn",
            "1",
            "--steps",
            "200000000",
        ],
        class: SPINS,
        ends: &[(
            0,
            "init returned\nthread 1 returned\nthread 2 returned\ndone returned\n",
        )],
    },
    // Each thread spins until the other one has written, and neither runs to its end in one go.
    ThreadRun {
        options: &["--threads", "2", "--workers", "1", "--steps", "1000"],
        class: SPINS,
        ends: &[(
            0,
            "init returned\nthread 1 returned\nthread 2 returned\ndone returned\n",
        )],
    },
    ThreadRun {
        options: &["--threads", "8", "--workers", "3"],
        class: BANK,
        ends: &[(
            0,
            "36000\ninit returned\nthread 1 returned\nthread 2 returned\nthread 3 returned\n\
                thread 4 returned\nthread 5 returned\nthread 6 returned\nthread 7 returned\n\
                thread 8 returned\ndone returned\n",
        )],
    },
];

/// Words of a run on threads over that memory.
fn run_words(alloc: Global, options: &[&str], memory: &str) -> Result<Vec<String>, AllocError> {
    let mut words = words(alloc, options)?;
    for word in ["--mode", "run", "--memory", memory] {
        words.push(String::from_str(alloc, word)?)?;
    }
    Ok(words)
}

fn is_one_of(ends: &[End], status: u8, text: &[u8]) -> bool {
    ends.iter().any(|end| end.0 == status && text.starts_with(end.1.as_bytes()))
}

fn check_all<R: Abort + Threads + Wait + Sync + AllocGlobal>(
    rt: &R,
    runs: &[ThreadRun],
    memory: &str,
) -> Result<(), AllocError> {
    let alloc = rt.alloc();
    for run in runs {
        let words = run_words(alloc, run.options, memory)?;
        let gate = MeetingGate::new();
        let (status, sink) = answer(rt, &words, bytes_of(alloc, run.class)?, &gate)?;
        assert!(rt; is_one_of(run.ends, status, sink.text().as_slice()));
    }
    Ok(())
}

#[test]
fn threads_without_a_lock(rt: HostRuntime) -> Result<(), Fail> {
    check_all(&rt, &RUNS, "table")?;
    check_all(&rt, &FEW, "table")?;
    Ok(())
}

#[test]
fn threads_under_one_lock(rt: HostRuntime) -> Result<(), Fail> {
    check_all(&rt, &RUNS, "locked")?;
    Ok(())
}

/// Words behind the program's name, and up to which number workers pass the gate then.
type Crowd = (&'static str, u8);

const CROWDS: [Crowd; 18] = [
    ("--mode run --memory table --threads 1 A.class", 1),
    ("--mode run --memory table --threads 2 A.class", 2),
    ("--mode run --memory table --threads 8 A.class", 8),
    ("--mode run --memory locked --threads 1 A.class", 1),
    ("--mode run --memory locked --threads 2 A.class", 2),
    ("--mode run --memory locked --threads 8 A.class", 8),
    ("--mode record --threads 1 A.class", 1),
    ("--mode record --threads 2 A.class", 2),
    ("--mode record --threads 8 A.class", 8),
    ("--mode load --threads 1 --size 1", 1),
    ("--mode load --threads 8 --size 1", 8),
    ("--mode cell --threads 1 --size 1", 1),
    ("--mode cell --threads 8 --size 1", 8),
    ("--mode run --threads 2 --workers 2 A.class", 2),
    ("--mode run --threads 8 --workers 8 A.class", 8),
    ("--mode run --threads 8 --workers 3 A.class", 3),
    // Where there are more workers than threads the rest have no part in it.
    ("--mode run --threads 1 --workers 2 A.class", 1),
    // One worker alone passes no gate.
    ("--mode run --threads 2 --workers 1 A.class", 0),
];

/// The program's name and the words of a text.
fn words_in(alloc: Global, text: &str) -> Result<Vec<String>, AllocError> {
    let mut words = options_alone(alloc, &[])?;
    for word in text.split(' ') {
        words.push(String::from_str(alloc, word)?)?;
    }
    Ok(words)
}

/// How often a worker looks for the others, and lets them go on.
const LOOKS: u32 = 2_000_000;

/// A gate at which each worker up to a number looks for all the others.
#[derive(Drop)]
struct Meeting {
    most: u8,
    /// How often each number came.
    came: Vec<AtomicU64>,
    /// How often one found that all had come.
    met: AtomicU64,
}

impl Meeting {
    fn new(alloc: Global, most: u8) -> Result<Self, AllocError> {
        let mut came = Vec::new(alloc);
        for _ in 0..=u8::MAX {
            came.push(AtomicU64::new(0))?;
        }
        let met = AtomicU64::new(0);
        Ok(Meeting { most, came, met })
    }

    /// Whether each of these workers came once, and no other number did.
    fn has_all(&self) -> bool {
        for (t, came) in self.came.iter().enumerate() {
            let once = 0 < t && t <= self.most as usize;
            if came.load(Ordering::SeqCst) != once as u64 {
                return false;
            }
        }
        true
    }
}

impl Gate for Meeting {
    fn pass(&self, t: u8) {
        if let Some(came) = self.came.get(t as usize) {
            came.fetch_add(1, Ordering::SeqCst);
        }
        for _ in 0..LOOKS {
            if self.has_all() {
                self.met.fetch_add(1, Ordering::SeqCst);
                return;
            }
            yield_now();
        }
    }
}

// All workers pass the gate at one time, as no single thread can.
#[test]
fn workers_meet(rt: HostRuntime) -> Result<(), Fail> {
    let alloc = rt.alloc();
    for (words, most) in CROWDS {
        let gate = Meeting::new(alloc, most)?;
        answer(
            &rt,
            &words_in(alloc, words)?,
            bytes_of(alloc, SHARED)?,
            &gate,
        )?;
        assert!(rt; gate.has_all());
        assert_eq!(rt; gate.met.load(Ordering::SeqCst), u64::from(most));
    }
    Ok(())
}
