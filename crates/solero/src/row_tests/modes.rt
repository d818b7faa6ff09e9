//! Runs on threads of the system that have one order.

use super::Run;
use test_classes::{ADDS, SHARED};

pub const ONE_ORDER: [Run; 3] = [
    // No worker makes an event that could be recorded.
    Run {
        options: &["--mode", "record"],
        order: &[],
        class: ADDS,
        changes: &[],
        status: 0,
        text: "\
            5\n\
            init returned\n\
            done returned\n\
            counts 0 instructions 6 elided 0 failed 0 locked 0 inflated 0\n\
            order -\n\
        ",
    },
    // One worker makes them all.
    Run {
        options: &["--mode", "record", "--threads", "1"],
        order: &[],
        class: SHARED,
        changes: &[],
        status: 0,
        text: "\
            0\n\
            init returned\n\
            thread 1 returned\n\
            done returned\n\
            counts 0 instructions 8 elided 0 failed 0 locked 0 inflated 0\n\
            counts 1 instructions 20 elided 1 failed 0 locked 0 inflated 0\n\
            order 111111111111111111111111\n\
        ",
    },
    // One worker of the system gives each thread its turn.
    Run {
        options: &[
            "--mode",
            "run",
            "--threads",
            "2",
            "--workers",
            "1",
            "--turn",
            "1000",
        ],
        order: &[],
        class: SHARED,
        changes: &[],
        status: 0,
        text: "\
            0\n\
            init returned\n\
            thread 1 returned\n\
            thread 2 returned\n\
            done returned\n\
            counts 0 instructions 8 elided 0 failed 0 locked 0 inflated 0\n\
            counts 1 instructions 20 elided 1 failed 0 locked 0 inflated 0\n\
            counts 2 instructions 14 elided 0 failed 0 locked 1 inflated 0\n\
        ",
    },
];
