//! Limits of instructions, failed turns and prints.

use super::Run;
use test_classes::{ADDS, ADDS_TWICE, SHARED};

pub const LIMITS: [Run; 8] = [
    // The sixth instruction would be one too many.
    Run {
        options: &["--steps", "5"],
        order: &[],
        class: ADDS,
        changes: &[],
        status: 7,
        text: "\
            5\n\
            init steps\n\
            done not run\n\
            counts 0 instructions 5 elided 0 failed 0 locked 0 inflated 0\n\
        ",
    },
    // The sixth is the last one.
    Run {
        options: &["--steps", "6"],
        order: &[],
        class: ADDS,
        changes: &[],
        status: 0,
        text: "\
            5\n\
            init returned\n\
            done returned\n\
            counts 0 instructions 6 elided 0 failed 0 locked 0 inflated 0\n\
        ",
    },
    // The second print is one too many.
    Run {
        options: &["--prints", "1"],
        order: &[],
        class: ADDS_TWICE,
        changes: &[],
        status: 7,
        text: "\
            5\n\
            init prints\n\
            done not run\n\
            counts 0 instructions 10 elided 0 failed 0 locked 0 inflated 0\n\
        ",
    },
    // Where `init` does not return nothing else runs.
    Run {
        options: &["--threads", "2", "--steps", "7"],
        order: &[],
        class: SHARED,
        changes: &[],
        status: 7,
        text: "\
            init steps\n\
            thread 1 not run\n\
            thread 2 not run\n\
            done not run\n\
            counts 0 instructions 7 elided 0 failed 0 locked 0 inflated 0\n\
            counts 1 instructions 0 elided 0 failed 0 locked 0 inflated 0\n\
            counts 2 instructions 0 elided 0 failed 0 locked 0 inflated 0\n\
        ",
    },
    // The limit ends an attempt, which counts neither as elided nor as failed.
    Run {
        options: &["--threads", "1", "--steps", "12"],
        order: &[],
        class: SHARED,
        changes: &[],
        status: 7,
        text: "\
            init returned\n\
            thread 1 steps\n\
            done not run\n\
            counts 0 instructions 8 elided 0 failed 0 locked 0 inflated 0\n\
            counts 1 instructions 12 elided 0 failed 0 locked 0 inflated 0\n\
        ",
    },
    // The limit comes behind an elided section.
    Run {
        options: &["--threads", "1", "--steps", "17"],
        order: &[],
        class: SHARED,
        changes: &[],
        status: 7,
        text: "\
            init returned\n\
            thread 1 steps\n\
            done not run\n\
            counts 0 instructions 8 elided 0 failed 0 locked 0 inflated 0\n\
            counts 1 instructions 17 elided 1 failed 0 locked 0 inflated 0\n\
        ",
    },
    // There are just as many instructions.
    Run {
        options: &["--threads", "1", "--steps", "20"],
        order: &[],
        class: SHARED,
        changes: &[],
        status: 0,
        text: "\
            0\n\
            init returned\n\
            thread 1 returned\n\
            done returned\n\
            counts 0 instructions 8 elided 0 failed 0 locked 0 inflated 0\n\
            counts 1 instructions 20 elided 1 failed 0 locked 0 inflated 0\n\
        ",
    },
    // The first failed turn is the last one.
    Run {
        options: &["--threads", "2", "--turns", "1"],
        order: &[],
        class: SHARED,
        changes: &[],
        status: 7,
        text: "\
            init returned\n\
            thread 1 turns\n\
            thread 2 returned\n\
            done not run\n\
            counts 0 instructions 8 elided 0 failed 0 locked 0 inflated 0\n\
            counts 1 instructions 10 elided 0 failed 0 locked 0 inflated 0\n\
            counts 2 instructions 14 elided 0 failed 0 locked 1 inflated 0\n\
        ",
    },
];
