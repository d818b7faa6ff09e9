//! Instructions of arrays, fields, calls, exceptions and monitors on chosen values.

use super::Run;
use test_classes::{ARRAYS, BOOLEANS, FIELDS, FILLS_HEAP, INVOKES, MONITORS, THROWS};

pub const OBJECTS: [Run; 8] = [
    // Elements at the ends of an array, and indices and lengths that are caught.
    Run {
        options: &[],
        order: &[],
        class: ARRAYS,
        changes: &[],
        status: 0,
        text: "\
            3\n\
            0\n\
            0\n\
            0\n\
            -2147483648\n\
            -1\n\
            2147483647\n\
            7\n\
            0\n\
            10\n\
            11\n\
            20\n\
            21\n\
            30\n\
            31\n\
            40\n\
            41\n\
            50\n\
            51\n\
            60\n\
            61\n\
            -2147483648\n\
            7\n\
            2147483647\n\
            101\n\
            102\n\
            103\n\
            104\n\
            105\n\
            106\n\
            100\n\
            1\n\
            0\n\
            init returned\n\
            done returned\n\
            counts 0 instructions 256 elided 0 failed 0 locked 0 inflated 0\n\
        ",
    },
    // Fields of each type, in objects and in classes; a field of type Z keeps the low bit.
    Run {
        options: &[],
        order: &[],
        class: FIELDS,
        changes: &[],
        status: 0,
        text: "\
            0\n\
            0\n\
            0\n\
            0\n\
            -2147483648\n\
            1\n\
            0\n\
            -2147483648\n\
            -1\n\
            2147483647\n\
            0\n\
            2147483647\n\
            9\n\
            1\n\
            1\n\
            0\n\
            0\n\
            0\n\
            0\n\
            1\n\
            1\n\
            1\n\
            1\n\
            0\n\
            0\n\
            2147483647\n\
            -2147483648\n\
            6\n\
            77\n\
            101\n\
            102\n\
            103\n\
            104\n\
            init returned\n\
            done returned\n\
            counts 0 instructions 231 elided 0 failed 0 locked 0 inflated 0\n\
        ",
    },
    // Calls of each form with their arguments in order, what they give, and calls on null.
    Run {
        options: &[],
        order: &[],
        class: INVOKES,
        changes: &[],
        status: 0,
        text: "\
            7\n\
            1234\n\
            130\n\
            22\n\
            32\n\
            5\n\
            7\n\
            33\n\
            33\n\
            72\n\
            33\n\
            479001600\n\
            1932053504\n\
            55\n\
            0\n\
            1\n\
            101\n\
            102\n\
            103\n\
            104\n\
            init returned\n\
            done returned\n\
            counts 0 instructions 2169 elided 0 failed 0 locked 0 inflated 0\n\
        ",
    },
    // An argument and a result of type Z keep all bits.
    Run {
        options: &[],
        order: &[],
        class: BOOLEANS,
        changes: &[],
        status: 0,
        text: "\
            0\n\
            0\n\
            1\n\
            1\n\
            2\n\
            2\n\
            3\n\
            3\n\
            -1\n\
            -1\n\
            init returned\n\
            done returned\n\
            counts 0 instructions 61 elided 0 failed 0 locked 0 inflated 0\n\
        ",
    },
    // The row that takes each of the twelve throwables, and what a handler finds; the last one is
    // thrown again.
    Run {
        options: &[],
        order: &[],
        class: THROWS,
        changes: &[],
        status: 1,
        text: "\
            5\n\
            3\n\
            4\n\
            2\n\
            3\n\
            2\n\
            1\n\
            2\n\
            2\n\
            2\n\
            4\n\
            4\n\
            1\n\
            21\n\
            32\n\
            6\n\
            8\n\
            51\n\
            61\n\
            init uncaught java/lang/ArrayIndexOutOfBoundsException\n\
            done not run\n\
            counts 0 instructions 240 elided 0 failed 0 locked 0 inflated 0\n\
        ",
    },
    // Monitors that are entered once, again and on null, left by an exception, and not held.
    Run {
        options: &[],
        order: &[],
        class: MONITORS,
        changes: &[],
        status: 0,
        text: "\
            1\n\
            2\n\
            3\n\
            7\n\
            8\n\
            101\n\
            102\n\
            103\n\
            104\n\
            114\n\
            105\n\
            115\n\
            106\n\
            116\n\
            107\n\
            init returned\n\
            done returned\n\
            counts 0 instructions 240 elided 1 failed 0 locked 9 inflated 0\n\
        ",
    },
    // All sections take the lock.
    Run {
        options: &["--elide", "off"],
        order: &[],
        class: MONITORS,
        changes: &[],
        status: 0,
        text: "\
            1\n\
            2\n\
            3\n\
            7\n\
            8\n\
            101\n\
            102\n\
            103\n\
            104\n\
            114\n\
            105\n\
            115\n\
            106\n\
            116\n\
            107\n\
            init returned\n\
            done returned\n\
            counts 0 instructions 240 elided 0 failed 0 locked 10 inflated 0\n\
        ",
    },
    // Objects until the heap is full.
    Run {
        options: &["--heap", "4096"],
        order: &[],
        class: FILLS_HEAP,
        changes: &[],
        status: 0,
        text: "\
            7\n\
            1012\n\
            init returned\n\
            done returned\n\
            counts 0 instructions 7094 elided 0 failed 0 locked 0 inflated 0\n\
        ",
    },
];
