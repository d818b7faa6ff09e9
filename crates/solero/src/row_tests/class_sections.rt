//! Sections on a class: static synchronized methods, which have the lock of their class.

use super::Run;
use test_classes::{CLASS_LOCKS, CLASS_PAIR, SETS_AND_SUMS};

/// A static field is not private.
const ONE_FOR_ALL: &[(usize, u8)] = &[(254, 8)];

pub const CLASS_SECTIONS: [Run; 10] = [
    // The setter takes the lock of the class, and the reader's section is elided.
    Run {
        options: &[],
        order: &[],
        class: SETS_AND_SUMS,
        changes: &[],
        status: 0,
        text: "\
            8\n\
            init returned\n\
            done returned\n\
            counts 0 instructions 15 elided 1 failed 0 locked 1 inflated 0\n\
        ",
    },
    // Both take the lock.
    Run {
        options: &["--elide", "off"],
        order: &[],
        class: SETS_AND_SUMS,
        changes: &[],
        status: 0,
        text: "\
            8\n\
            init returned\n\
            done returned\n\
            counts 0 instructions 15 elided 0 failed 0 locked 2 inflated 0\n\
        ",
    },
    // The first release makes the count the last one.
    Run {
        options: &["--range", "1"],
        order: &[],
        class: SETS_AND_SUMS,
        changes: &[],
        status: 0,
        text: "\
            8\n\
            init returned\n\
            done returned\n\
            counts 0 instructions 15 elided 0 failed 0 locked 2 inflated 0\n\
        ",
    },
    // Their marks.
    Run {
        options: &["--mode", "mark"],
        order: &[],
        class: SETS_AND_SUMS,
        changes: &[],
        status: 0,
        text: "\
            S.set(I)V method M1\n\
            S.sum()I method M0\n\
        ",
    },
    // The reader reads what any code may write.
    Run {
        options: &["--mode", "mark"],
        order: &[],
        class: SETS_AND_SUMS,
        changes: ONE_FOR_ALL,
        status: 0,
        text: "\
            S.set(I)V method M1\n\
            S.sum()I method M5\n\
        ",
    },
    // So it takes the lock.
    Run {
        options: &[],
        order: &[],
        class: SETS_AND_SUMS,
        changes: ONE_FOR_ALL,
        status: 0,
        text: "\
            8\n\
            init returned\n\
            done returned\n\
            counts 0 instructions 15 elided 0 failed 0 locked 2 inflated 0\n\
        ",
    },
    // Thread 1 reads one field before it is set and the other behind it: the attempt fails at its
    // end, and the second one sees both set.
    Run {
        options: &["--threads", "2"],
        order: &[('1', 8), ('2', 14)],
        class: CLASS_PAIR,
        changes: &[],
        status: 0,
        text: "\
            8\n\
            init returned\n\
            thread 1 returned\n\
            thread 2 returned\n\
            done returned\n\
            counts 0 instructions 0 elided 0 failed 0 locked 0 inflated 0\n\
            counts 1 instructions 16 elided 1 failed 1 locked 0 inflated 0\n\
            counts 2 instructions 11 elided 0 failed 0 locked 1 inflated 0\n\
        ",
    },
    // With locks in the same order, the reader comes first.
    Run {
        options: &["--threads", "2", "--elide", "off"],
        order: &[('1', 8), ('2', 14)],
        class: CLASS_PAIR,
        changes: &[],
        status: 0,
        text: "\
            0\n\
            init returned\n\
            thread 1 returned\n\
            thread 2 returned\n\
            done returned\n\
            counts 0 instructions 0 elided 0 failed 0 locked 0 inflated 0\n\
            counts 1 instructions 12 elided 0 failed 0 locked 1 inflated 0\n\
            counts 2 instructions 11 elided 0 failed 0 locked 1 inflated 0\n\
        ",
    },
    // After two attempts that failed the lock is taken.
    Run {
        options: &["--threads", "3"],
        order: &[('1', 8), ('2', 14), ('1', 5), ('3', 14)],
        class: CLASS_PAIR,
        changes: &[],
        status: 0,
        text: "\
            8\n\
            init returned\n\
            thread 1 returned\n\
            thread 2 returned\n\
            thread 3 returned\n\
            done returned\n\
            counts 0 instructions 0 elided 0 failed 0 locked 0 inflated 0\n\
            counts 1 instructions 20 elided 0 failed 2 locked 1 inflated 0\n\
            counts 2 instructions 11 elided 0 failed 0 locked 1 inflated 0\n\
            counts 3 instructions 11 elided 0 failed 0 locked 1 inflated 0\n\
        ",
    },
    // One that divides, one that calls it twice, and one that writes.
    Run {
        options: &["--mode", "mark"],
        order: &[],
        class: CLASS_LOCKS,
        changes: &[],
        status: 0,
        text: "\
            ClassLocks.half(I)I method M0\n\
            ClassLocks.twice(I)I method M0\n\
            ClassLocks.add(I)V method M1\n\
        ",
    },
];
