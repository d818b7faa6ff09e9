//! Threads that fight for a lock, make it fat, wait and notify.

use super::Run;
use test_classes::{
    BANK, CLASS_LOCKS, LOCKS_OUT, RECORDS, SHARED_AND_DONE, SPINS, WAITS, WAITS_DEEP,
};

pub const MEETINGS: [Run; 16] = [
    // The monitor of a class: two sections without it, one of which an exception leaves; then
    // thread 1 flags it, so that thread 2 makes it fat as it returns.
    Run {
        options: &["--threads", "2"],
        order: &[('2', 6), ('1', 80)],
        class: CLASS_LOCKS,
        changes: &[],
        status: 0,
        text: "\
            4\n\
            3\n\
            init returned\n\
            thread 1 returned\n\
            thread 2 returned\n\
            done returned\n\
            counts 0 instructions 32 elided 2 failed 0 locked 0 inflated 0\n\
            counts 1 instructions 8 elided 0 failed 0 locked 1 inflated 0\n\
            counts 2 instructions 8 elided 0 failed 0 locked 1 inflated 1\n\
        ",
    },
    // Thread 1 fails so many turns that it flags the lock, which is made fat when it is left.
    Run {
        options: &["--threads", "2"],
        order: &[('2', 9), ('1', 77), ('2', 14)],
        class: SHARED_AND_DONE,
        changes: &[],
        status: 0,
        text: "\
            8\n\
            8\n\
            init returned\n\
            thread 1 returned\n\
            thread 2 returned\n\
            done returned\n\
            counts 0 instructions 25 elided 0 failed 0 locked 1 inflated 0\n\
            counts 1 instructions 20 elided 0 failed 0 locked 1 inflated 0\n\
            counts 2 instructions 14 elided 0 failed 0 locked 1 inflated 1\n\
        ",
    },
    // The same without elision.
    Run {
        options: &["--threads", "2", "--elide", "off"],
        order: &[('2', 9), ('1', 77), ('2', 14)],
        class: SHARED_AND_DONE,
        changes: &[],
        status: 0,
        text: "\
            8\n\
            8\n\
            init returned\n\
            thread 1 returned\n\
            thread 2 returned\n\
            done returned\n\
            counts 0 instructions 25 elided 0 failed 0 locked 1 inflated 0\n\
            counts 1 instructions 20 elided 0 failed 0 locked 1 inflated 0\n\
            counts 2 instructions 14 elided 0 failed 0 locked 1 inflated 1\n\
        ",
    },
    // Thread 1 looks while the owner of the record is stored, and the lock word not yet.
    Run {
        options: &["--threads", "2"],
        order: &[('2', 9), ('1', 77), ('2', 10), ('1', 3), ('2', 4)],
        class: SHARED_AND_DONE,
        changes: &[],
        status: 0,
        text: "\
            8\n\
            8\n\
            init returned\n\
            thread 1 returned\n\
            thread 2 returned\n\
            done returned\n\
            counts 0 instructions 25 elided 0 failed 0 locked 1 inflated 0\n\
            counts 1 instructions 20 elided 0 failed 0 locked 1 inflated 0\n\
            counts 2 instructions 14 elided 0 failed 0 locked 1 inflated 1\n\
        ",
    },
    // Two threads wait and are woken one by one; `done` notifies without the monitor.
    Run {
        options: &["--threads", "3"],
        order: &[('1', 40), ('2', 40), ('3', 14), ('1', 40)],
        class: WAITS,
        changes: &[],
        status: 1,
        text: "\
            1\n\
            2\n\
            init returned\n\
            thread 1 returned\n\
            thread 2 returned\n\
            thread 3 returned\n\
            done uncaught java/lang/IllegalMonitorStateException\n\
            counts 0 instructions 10 elided 0 failed 0 locked 0 inflated 0\n\
            counts 1 instructions 13 elided 0 failed 0 locked 1 inflated 1\n\
            counts 2 instructions 13 elided 0 failed 0 locked 1 inflated 0\n\
            counts 3 instructions 14 elided 0 failed 0 locked 2 inflated 0\n\
        ",
    },
    // The second notification finds no thread that waits, and the other one waits for ever.
    Run {
        options: &["--threads", "3", "--turns", "30"],
        order: &[('1', 40), ('3', 40), ('2', 40)],
        class: WAITS,
        changes: &[],
        status: 7,
        text: "\
            1\n\
            init returned\n\
            thread 1 returned\n\
            thread 2 turns\n\
            thread 3 returned\n\
            done not run\n\
            counts 0 instructions 8 elided 0 failed 0 locked 0 inflated 0\n\
            counts 1 instructions 13 elided 0 failed 0 locked 1 inflated 1\n\
            counts 2 instructions 8 elided 0 failed 0 locked 1 inflated 0\n\
            counts 3 instructions 14 elided 0 failed 0 locked 2 inflated 0\n\
        ",
    },
    // Turns begin anew with each entry and each wait: none of them fails five in a row.
    Run {
        options: &["--threads", "3", "--turns", "5"],
        order: &[
            ('1', 9),
            ('3', 9),
            ('1', 7),
            ('3', 2),
            ('2', 11),
            ('3', 6),
            ('2', 8),
            ('1', 2),
            ('3', 6),
            ('1', 7),
            ('3', 9),
            ('2', 9),
        ],
        class: WAITS,
        changes: &[],
        status: 1,
        text: "\
            1\n\
            2\n\
            init returned\n\
            thread 1 returned\n\
            thread 2 returned\n\
            thread 3 returned\n\
            done uncaught java/lang/IllegalMonitorStateException\n\
            counts 0 instructions 10 elided 0 failed 0 locked 0 inflated 0\n\
            counts 1 instructions 13 elided 0 failed 0 locked 1 inflated 1\n\
            counts 2 instructions 13 elided 0 failed 0 locked 1 inflated 0\n\
            counts 3 instructions 14 elided 0 failed 0 locked 2 inflated 0\n\
        ",
    },
    // They wait two entries deep; one notification wakes all.
    Run {
        options: &["--threads", "3", "--turns", "100"],
        order: &[('1', 40), ('2', 40), ('3', 60)],
        class: WAITS_DEEP,
        changes: &[],
        status: 0,
        text: "\
            1\n\
            2\n\
            init returned\n\
            thread 1 returned\n\
            thread 2 returned\n\
            thread 3 returned\n\
            done returned\n\
            counts 0 instructions 8 elided 0 failed 0 locked 0 inflated 0\n\
            counts 1 instructions 17 elided 0 failed 0 locked 1 inflated 1\n\
            counts 2 instructions 17 elided 0 failed 0 locked 1 inflated 0\n\
            counts 3 instructions 13 elided 0 failed 0 locked 1 inflated 0\n\
        ",
    },
    // On a flat lock nobody waits yet.
    Run {
        options: &["--threads", "3", "--turns", "30"],
        order: &[('3', 60), ('1', 40), ('2', 40)],
        class: WAITS_DEEP,
        changes: &[],
        status: 7,
        text: "\
            init returned\n\
            thread 1 turns\n\
            thread 2 turns\n\
            thread 3 returned\n\
            done not run\n\
            counts 0 instructions 8 elided 0 failed 0 locked 0 inflated 0\n\
            counts 1 instructions 11 elided 0 failed 0 locked 1 inflated 1\n\
            counts 2 instructions 11 elided 0 failed 0 locked 1 inflated 0\n\
            counts 3 instructions 13 elided 0 failed 0 locked 1 inflated 0\n\
        ",
    },
    // Each of two threads holds the monitor that the other one wants.
    Run {
        options: &["--threads", "2", "--turns", "1000"],
        order: &[],
        class: LOCKS_OUT,
        changes: &[],
        status: 7,
        text: "\
            init returned\n\
            thread 1 turns\n\
            thread 2 turns\n\
            done not run\n\
            counts 0 instructions 9 elided 0 failed 0 locked 0 inflated 0\n\
            counts 1 instructions 11 elided 0 failed 0 locked 1 inflated 0\n\
            counts 2 instructions 11 elided 0 failed 0 locked 1 inflated 0\n\
        ",
    },
    // The marks of its sections, which are on other objects.
    Run {
        options: &["--mode", "mark"],
        order: &[],
        class: LOCKS_OUT,
        changes: &[],
        status: 0,
        text: "\
            X.run(I)V block 10 M8\n\
            X.run(I)V block 16 M8\n\
            X.run(I)V block 45 M8\n\
            X.run(I)V block 51 M8\n\
        ",
    },
    // Seven threads set both fields beside one that reads them, round by round.
    Run {
        options: &["--threads", "8"],
        order: &[],
        class: SHARED_AND_DONE,
        changes: &[],
        status: 0,
        text: "\
            8\n\
            8\n\
            init returned\n\
            thread 1 returned\n\
            thread 2 returned\n\
            thread 3 returned\n\
            thread 4 returned\n\
            thread 5 returned\n\
            thread 6 returned\n\
            thread 7 returned\n\
            thread 8 returned\n\
            done returned\n\
            counts 0 instructions 25 elided 1 failed 0 locked 0 inflated 0\n\
            counts 1 instructions 20 elided 0 failed 0 locked 1 inflated 0\n\
            counts 2 instructions 14 elided 0 failed 0 locked 1 inflated 0\n\
            counts 3 instructions 14 elided 0 failed 0 locked 1 inflated 0\n\
            counts 4 instructions 14 elided 0 failed 0 locked 1 inflated 0\n\
            counts 5 instructions 14 elided 0 failed 0 locked 1 inflated 0\n\
            counts 6 instructions 14 elided 0 failed 0 locked 1 inflated 0\n\
            counts 7 instructions 14 elided 0 failed 0 locked 1 inflated 0\n\
            counts 8 instructions 14 elided 0 failed 0 locked 1 inflated 0\n\
        ",
    },
    // Two threads spin until the other one has written.
    Run {
        options: &["--threads", "2", "--steps", "1000"],
        order: &[],
        class: SPINS,
        changes: &[],
        status: 0,
        text: "\
            init returned\n\
            thread 1 returned\n\
            thread 2 returned\n\
            done returned\n\
            counts 0 instructions 0 elided 0 failed 0 locked 0 inflated 0\n\
            counts 1 instructions 12 elided 0 failed 0 locked 0 inflated 0\n\
            counts 2 instructions 10 elided 0 failed 0 locked 0 inflated 0\n\
        ",
    },
    // Four threads add their numbers a thousand times each.
    Run {
        options: &["--threads", "4"],
        order: &[],
        class: BANK,
        changes: &[],
        status: 0,
        text: "\
            10000\n\
            init returned\n\
            thread 1 returned\n\
            thread 2 returned\n\
            thread 3 returned\n\
            thread 4 returned\n\
            done returned\n\
            counts 0 instructions 22 elided 1 failed 0 locked 0 inflated 0\n\
            counts 1 instructions 27006 elided 0 failed 0 locked 2000 inflated 0\n\
            counts 2 instructions 27006 elided 0 failed 0 locked 2000 inflated 0\n\
            counts 3 instructions 27006 elided 0 failed 0 locked 2000 inflated 0\n\
            counts 4 instructions 35006 elided 0 failed 2000 locked 2000 inflated 0\n\
        ",
    },
    // When 1,024 waits have taken all records, a lock that is flagged stays flat.
    Run {
        options: &["--threads", "4"],
        order: &[],
        class: RECORDS,
        changes: &[],
        status: 0,
        text: "\
            init returned\n\
            thread 1 returned\n\
            thread 2 returned\n\
            thread 3 returned\n\
            thread 4 returned\n\
            done returned\n\
            counts 0 instructions 8 elided 0 failed 0 locked 0 inflated 0\n\
            counts 1 instructions 17421 elided 0 failed 0 locked 1024 inflated 1024\n\
            counts 2 instructions 24595 elided 0 failed 0 locked 2048 inflated 0\n\
            counts 3 instructions 34818 elided 0 failed 0 locked 1 inflated 0\n\
            counts 4 instructions 33918 elided 0 failed 0 locked 1 inflated 0\n\
        ",
    },
    // A wait that finds no record ends its thread, which keeps the monitor.
    Run {
        options: &["--threads", "2", "--turns", "1000"],
        order: &[],
        class: RECORDS,
        changes: &[(250, 1)],
        status: 7,
        text: "\
            init returned\n\
            thread 1 records\n\
            thread 2 turns\n\
            done not run\n\
            counts 0 instructions 8 elided 0 failed 0 locked 0 inflated 0\n\
            counts 1 instructions 17428 elided 0 failed 0 locked 1025 inflated 1024\n\
            counts 2 instructions 24599 elided 0 failed 0 locked 2048 inflated 0\n\
        ",
    },
];
