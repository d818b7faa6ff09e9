//! Sections that run without their lock, alone and beside a thread that sets what they read.

use super::Run;
use test_classes::{COUNTS, DIVIDES, DIVIDES_AT_REST, LEAVES_BY_EXCEPTION, PAIR, SHARED, TWICE};

pub const SECTIONS: [Run; 15] = [
    // The setter takes the lock, and three sections are elided.
    Run {
        options: &[],
        order: &[],
        class: PAIR,
        changes: &[],
        status: 0,
        text: "\
            8\n\
            8\n\
            8\n\
            init returned\n\
            done returned\n\
            counts 0 instructions 66 elided 3 failed 0 locked 1 inflated 0\n\
        ",
    },
    // All four take the lock.
    Run {
        options: &["--elide", "off"],
        order: &[],
        class: PAIR,
        changes: &[],
        status: 0,
        text: "\
            8\n\
            8\n\
            8\n\
            init returned\n\
            done returned\n\
            counts 0 instructions 66 elided 0 failed 0 locked 4 inflated 0\n\
        ",
    },
    // The first release makes the count the last one, so no section is elided.
    Run {
        options: &["--range", "1"],
        order: &[],
        class: PAIR,
        changes: &[],
        status: 0,
        text: "\
            8\n\
            8\n\
            8\n\
            init returned\n\
            done returned\n\
            counts 0 instructions 66 elided 0 failed 0 locked 4 inflated 0\n\
        ",
    },
    // The count is below the last one.
    Run {
        options: &["--range", "2"],
        order: &[],
        class: PAIR,
        changes: &[],
        status: 0,
        text: "\
            8\n\
            8\n\
            8\n\
            init returned\n\
            done returned\n\
            counts 0 instructions 66 elided 3 failed 0 locked 1 inflated 0\n\
        ",
    },
    // An elided section enters its monitor twice again.
    Run {
        options: &[],
        order: &[],
        class: TWICE,
        changes: &[],
        status: 0,
        text: "\
            16\n\
            init returned\n\
            done returned\n\
            counts 0 instructions 52 elided 1 failed 0 locked 1 inflated 0\n\
        ",
    },
    // An exception leaves a section that has no lock.
    Run {
        options: &[],
        order: &[],
        class: LEAVES_BY_EXCEPTION,
        changes: &[],
        status: 1,
        text: "\
            init uncaught java/lang/ArithmeticException\n\
            done not run\n\
            counts 0 instructions 10 elided 1 failed 0 locked 0 inflated 0\n\
        ",
    },
    // The same with the lock.
    Run {
        options: &["--elide", "off"],
        order: &[],
        class: LEAVES_BY_EXCEPTION,
        changes: &[],
        status: 1,
        text: "\
            init uncaught java/lang/ArithmeticException\n\
            done not run\n\
            counts 0 instructions 10 elided 0 failed 0 locked 1 inflated 0\n\
        ",
    },
    // A section divides by 0 where both fields are 0 at rest: the exception stands.
    Run {
        options: &["--threads", "1"],
        order: &[],
        class: DIVIDES_AT_REST,
        changes: &[],
        status: 1,
        text: "\
            init returned\n\
            thread 1 uncaught java/lang/ArithmeticException\n\
            done returned\n\
            counts 0 instructions 8 elided 0 failed 0 locked 0 inflated 0\n\
            counts 1 instructions 22 elided 1 failed 0 locked 0 inflated 0\n\
        ",
    },
    // One field is read before it is set and the other behind it: the attempt fails at its end, and
    // the second one sees both set.
    Run {
        options: &["--threads", "2"],
        order: &[('1', 13), ('2', 12), ('1', 3), ('2', 7)],
        class: SHARED,
        changes: &[],
        status: 0,
        text: "\
            8\n\
            init returned\n\
            thread 1 returned\n\
            thread 2 returned\n\
            done returned\n\
            counts 0 instructions 8 elided 0 failed 0 locked 0 inflated 0\n\
            counts 1 instructions 27 elided 1 failed 1 locked 0 inflated 0\n\
            counts 2 instructions 14 elided 0 failed 0 locked 1 inflated 0\n\
        ",
    },
    // With locks in the same order, the reader comes first.
    Run {
        options: &["--threads", "2", "--elide", "off"],
        order: &[('1', 13), ('2', 12), ('1', 3), ('2', 7)],
        class: SHARED,
        changes: &[],
        status: 0,
        text: "\
            0\n\
            init returned\n\
            thread 1 returned\n\
            thread 2 returned\n\
            done returned\n\
            counts 0 instructions 8 elided 0 failed 0 locked 0 inflated 0\n\
            counts 1 instructions 20 elided 0 failed 0 locked 1 inflated 0\n\
            counts 2 instructions 14 elided 0 failed 0 locked 1 inflated 0\n\
        ",
    },
    // After two attempts that failed the lock is taken.
    Run {
        options: &["--threads", "3"],
        order: &[('1', 13), ('2', 19), ('1', 8), ('3', 19)],
        class: SHARED,
        changes: &[],
        status: 0,
        text: "\
            8\n\
            init returned\n\
            thread 1 returned\n\
            thread 2 returned\n\
            thread 3 returned\n\
            done returned\n\
            counts 0 instructions 8 elided 0 failed 0 locked 0 inflated 0\n\
            counts 1 instructions 34 elided 0 failed 2 locked 1 inflated 0\n\
            counts 2 instructions 14 elided 0 failed 0 locked 1 inflated 0\n\
            counts 3 instructions 14 elided 0 failed 0 locked 1 inflated 0\n\
        ",
    },
    // An attempt divides by 0 in a torn view, and fails at the check of its exception.
    Run {
        options: &["--threads", "2"],
        order: &[('1', 12), ('2', 12), ('1', 7), ('2', 9)],
        class: DIVIDES,
        changes: &[],
        status: 0,
        text: "\
            10\n\
            init returned\n\
            thread 1 returned\n\
            thread 2 returned\n\
            done returned\n\
            counts 0 instructions 20 elided 0 failed 0 locked 1 inflated 0\n\
            counts 1 instructions 29 elided 1 failed 1 locked 0 inflated 0\n\
            counts 2 instructions 16 elided 0 failed 0 locked 1 inflated 0\n\
        ",
    },
    // An attempt would count for long, and fails at the check of its first jump back.
    Run {
        options: &["--threads", "2"],
        order: &[('1', 12), ('2', 12), ('1', 8), ('2', 9)],
        class: COUNTS,
        changes: &[],
        status: 0,
        text: "\
            11\n\
            init returned\n\
            thread 1 returned\n\
            thread 2 returned\n\
            done returned\n\
            counts 0 instructions 20 elided 0 failed 0 locked 1 inflated 0\n\
            counts 1 instructions 38 elided 1 failed 1 locked 0 inflated 0\n\
            counts 2 instructions 16 elided 0 failed 0 locked 1 inflated 0\n\
        ",
    },
    // The digits of no live worker are skipped.
    Run {
        options: &["--threads", "2"],
        order: &[
            ('8', 3),
            ('1', 13),
            ('2', 12),
            ('3', 2),
            ('1', 3),
            ('2', 9),
            ('2', 7),
        ],
        class: SHARED,
        changes: &[],
        status: 0,
        text: "\
            8\n\
            init returned\n\
            thread 1 returned\n\
            thread 2 returned\n\
            done returned\n\
            counts 0 instructions 8 elided 0 failed 0 locked 0 inflated 0\n\
            counts 1 instructions 27 elided 1 failed 1 locked 0 inflated 0\n\
            counts 2 instructions 14 elided 0 failed 0 locked 1 inflated 0\n\
        ",
    },
    // The marks of sections that enter their monitor again.
    Run {
        options: &["--mode", "mark"],
        order: &[],
        class: TWICE,
        changes: &[],
        status: 0,
        text: "\
            P.set(I)V method M1\n\
            P.sum()I block 3 M0\n\
            P.twice()I method M0\n\
        ",
    },
];
