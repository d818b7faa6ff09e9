//! One thread: objects, arithmetic, arrays and exceptions.

use super::Run;
use test_classes::{
    ALL_PARTS, CALLS_ITSELF, CATCHES_BY_CLASS, COMPUTES, COMPUTES_PRINTS, DIVIDES_BY_ZERO,
    INDEXES_AND_THROWS, KEEPS_LOW_BIT, MAKES_ARRAY, MEASURES_NULL, MOVES, MOVES_PRINTS,
    NEEDS_SLOTS, UNLOCKED,
};

pub const ONE_THREAD: [Run; 16] = [
    // An object, calls and fields, without a lock.
    Run {
        options: &[],
        order: &[],
        class: UNLOCKED,
        changes: &[],
        status: 0,
        text: "\
            8\n\
            8\n\
            8\n\
            init returned\n\
            done returned\n\
            counts 0 instructions 48 elided 0 failed 0 locked 0 inflated 0\n\
        ",
    },
    // A field of type Z keeps the low bit.
    Run {
        options: &[],
        order: &[],
        class: KEEPS_LOW_BIT,
        changes: &[],
        status: 0,
        text: "\
            1\n\
            init returned\n\
            done returned\n\
            counts 0 instructions 6 elided 0 failed 0 locked 0 inflated 0\n\
        ",
    },
    // `<clinit>`, `init` and `done`, with a static field that starts with -3.
    Run {
        options: &[],
        order: &[],
        class: ALL_PARTS,
        changes: &[],
        status: 0,
        text: "\
            1\n\
            2\n\
            3\n\
            -3\n\
            init returned\n\
            done returned\n\
            counts 0 instructions 15 elided 0 failed 0 locked 0 inflated 0\n\
        ",
    },
    // Ints at their edges.
    Run {
        options: &[],
        order: &[],
        class: COMPUTES,
        changes: &[],
        status: 0,
        text: COMPUTES_PRINTS,
    },
    // Stack moves, bits, branches, switches and a call with an array.
    Run {
        options: &[],
        order: &[],
        class: MOVES,
        changes: &[],
        status: 0,
        text: MOVES_PRINTS,
    },
    // A division by 0 that nothing catches.
    Run {
        options: &[],
        order: &[],
        class: DIVIDES_BY_ZERO,
        changes: &[],
        status: 1,
        text: "\
            init uncaught java/lang/ArithmeticException\n\
            done not run\n\
            counts 0 instructions 3 elided 0 failed 0 locked 0 inflated 0\n\
        ",
    },
    // The length of null.
    Run {
        options: &[],
        order: &[],
        class: MEASURES_NULL,
        changes: &[],
        status: 1,
        text: "\
            init uncaught java/lang/NullPointerException\n\
            done not run\n\
            counts 0 instructions 2 elided 0 failed 0 locked 0 inflated 0\n\
        ",
    },
    // The first row is for another class.
    Run {
        options: &[],
        order: &[],
        class: CATCHES_BY_CLASS,
        changes: &[],
        status: 0,
        text: "\
            4\n\
            init returned\n\
            done returned\n\
            counts 0 instructions 8 elided 0 failed 0 locked 0 inflated 0\n\
        ",
    },
    // An index out of range, which is caught, and an exception that the program made, which is not.
    Run {
        options: &[],
        order: &[],
        class: INDEXES_AND_THROWS,
        changes: &[],
        status: 1,
        text: "\
            7\n\
            3\n\
            init uncaught java/lang/Exception\n\
            done not run\n\
            counts 0 instructions 24 elided 0 failed 0 locked 0 inflated 0\n\
        ",
    },
    // The 257th frame has no room.
    Run {
        options: &[],
        order: &[],
        class: CALLS_ITSELF,
        changes: &[],
        status: 1,
        text: "\
            init uncaught java/lang/StackOverflowError\n\
            done not run\n\
            counts 0 instructions 256 elided 0 failed 0 locked 0 inflated 0\n\
        ",
    },
    // The first frame has no room.
    Run {
        options: &[],
        order: &[],
        class: NEEDS_SLOTS,
        changes: &[],
        status: 1,
        text: "\
            init uncaught java/lang/StackOverflowError\n\
            done not run\n\
            counts 0 instructions 0 elided 0 failed 0 locked 0 inflated 0\n\
        ",
    },
    // The heap has room for just 2,024 elements.
    Run {
        options: &["--heap", "4096"],
        order: &[],
        class: MAKES_ARRAY,
        changes: &[],
        status: 0,
        text: "\
            2024\n\
            init returned\n\
            done returned\n\
            counts 0 instructions 6 elided 0 failed 0 locked 0 inflated 0\n\
        ",
    },
    // One more has no room.
    Run {
        options: &["--heap", "4096"],
        order: &[],
        class: MAKES_ARRAY,
        changes: &[(125, 233)],
        status: 1,
        text: "\
            init uncaught java/lang/OutOfMemoryError\n\
            done not run\n\
            counts 0 instructions 3 elided 0 failed 0 locked 0 inflated 0\n\
        ",
    },
    // An array may be empty.
    Run {
        options: &["--heap", "4096"],
        order: &[],
        class: MAKES_ARRAY,
        changes: &[(124, 0), (125, 0)],
        status: 0,
        text: "\
            0\n\
            init returned\n\
            done returned\n\
            counts 0 instructions 6 elided 0 failed 0 locked 0 inflated 0\n\
        ",
    },
    // A length below 0.
    Run {
        options: &["--heap", "4096"],
        order: &[],
        class: MAKES_ARRAY,
        changes: &[(122, 255), (123, 255), (124, 255), (125, 255)],
        status: 1,
        text: "\
            init uncaught java/lang/NegativeArraySizeException\n\
            done not run\n\
            counts 0 instructions 3 elided 0 failed 0 locked 0 inflated 0\n\
        ",
    },
    // A length beyond the heap is not tried.
    Run {
        options: &["--heap", "4096"],
        order: &[],
        class: MAKES_ARRAY,
        changes: &[(122, 127), (123, 255), (124, 255), (125, 255)],
        status: 1,
        text: "\
            init uncaught java/lang/OutOfMemoryError\n\
            done not run\n\
            counts 0 instructions 3 elided 0 failed 0 locked 0 inflated 0\n\
        ",
    },
];
