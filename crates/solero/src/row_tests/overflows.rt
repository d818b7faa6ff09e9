//! The ends of the frames and of the slots of a thread.

use super::Run;
use test_classes::{
    CATCHES_DEEPEST, DESCENDS, DESCENDS_WIDE, FILLS_SLOTS, NEEDS_SLOTS, OVERFLOWS_ATTEMPT,
    OVERFLOWS_LOCKED, OVERFLOWS_TWICE,
};

pub const OVERFLOWS: [Run; 17] = [
    // 256 frames have room.
    Run {
        options: &[],
        order: &[],
        class: DESCENDS,
        changes: &[],
        status: 0,
        text: "\
            254\n\
            init returned\n\
            done returned\n\
            counts 0 instructions 2297 elided 0 failed 0 locked 0 inflated 0\n\
        ",
    },
    // The 257th has none.
    Run {
        options: &[],
        order: &[],
        class: DESCENDS,
        changes: &[(149, 255)],
        status: 0,
        text: "\
            -1\n\
            init returned\n\
            done returned\n\
            counts 0 instructions 1539 elided 0 failed 0 locked 0 inflated 0\n\
        ",
    },
    // 16 frames of 1,024 slots have room.
    Run {
        options: &[],
        order: &[],
        class: DESCENDS_WIDE,
        changes: &[],
        status: 0,
        text: "\
            14\n\
            init returned\n\
            done returned\n\
            counts 0 instructions 137 elided 0 failed 0 locked 0 inflated 0\n\
        ",
    },
    // The 17th has none.
    Run {
        options: &[],
        order: &[],
        class: DESCENDS_WIDE,
        changes: &[(149, 15)],
        status: 0,
        text: "\
            -1\n\
            init returned\n\
            done returned\n\
            counts 0 instructions 99 elided 0 failed 0 locked 0 inflated 0\n\
        ",
    },
    // With one local more the 16th has none.
    Run {
        options: &[],
        order: &[],
        class: DESCENDS_WIDE,
        changes: &[(306, 254)],
        status: 0,
        text: "\
            -1\n\
            init returned\n\
            done returned\n\
            counts 0 instructions 93 elided 0 failed 0 locked 0 inflated 0\n\
        ",
    },
    // The same with one place of the stack more.
    Run {
        options: &[],
        order: &[],
        class: DESCENDS_WIDE,
        changes: &[(304, 4)],
        status: 0,
        text: "\
            -1\n\
            init returned\n\
            done returned\n\
            counts 0 instructions 93 elided 0 failed 0 locked 0 inflated 0\n\
        ",
    },
    // And with one local less there is room again.
    Run {
        options: &[],
        order: &[],
        class: DESCENDS_WIDE,
        changes: &[(304, 4), (306, 252)],
        status: 0,
        text: "\
            14\n\
            init returned\n\
            done returned\n\
            counts 0 instructions 137 elided 0 failed 0 locked 0 inflated 0\n\
        ",
    },
    // The frames are gone behind the exception: there is room for as many.
    Run {
        options: &[],
        order: &[],
        class: OVERFLOWS_TWICE,
        changes: &[],
        status: 0,
        text: "\
            7\n\
            255\n\
            8\n\
            255\n\
            init returned\n\
            done returned\n\
            counts 0 instructions 2573 elided 0 failed 0 locked 0 inflated 0\n\
        ",
    },
    // The last frame catches what its call throws.
    Run {
        options: &[],
        order: &[],
        class: CATCHES_DEEPEST,
        changes: &[],
        status: 0,
        text: "\
            255\n\
            init returned\n\
            done returned\n\
            counts 0 instructions 1282 elided 0 failed 0 locked 0 inflated 0\n\
        ",
    },
    // The first frame takes all slots.
    Run {
        options: &[],
        order: &[],
        class: NEEDS_SLOTS,
        changes: &[(88, 0)],
        status: 0,
        text: "\
            init returned\n\
            done returned\n\
            counts 0 instructions 1 elided 0 failed 0 locked 0 inflated 0\n\
        ",
    },
    // Beside a frame with all slots there is room for one without any.
    Run {
        options: &[],
        order: &[],
        class: FILLS_SLOTS,
        changes: &[],
        status: 0,
        text: "\
            1\n\
            2\n\
            init returned\n\
            done returned\n\
            counts 0 instructions 12 elided 0 failed 0 locked 0 inflated 0\n\
        ",
    },
    // One slot less in the first frame, and the other one has room.
    Run {
        options: &[],
        order: &[],
        class: FILLS_SLOTS,
        changes: &[(323, 253)],
        status: 0,
        text: "\
            1\n\
            init returned\n\
            done returned\n\
            counts 0 instructions 10 elided 0 failed 0 locked 0 inflated 0\n\
        ",
    },
    // One slot more, and the first frame has none.
    Run {
        options: &[],
        order: &[],
        class: FILLS_SLOTS,
        changes: &[(323, 255)],
        status: 1,
        text: "\
            init uncaught java/lang/StackOverflowError\n\
            done not run\n\
            counts 0 instructions 0 elided 0 failed 0 locked 0 inflated 0\n\
        ",
    },
    // Each thread has frames of its own, and leaves a monitor as often as it has entered it.
    Run {
        options: &["--threads", "2"],
        order: &[],
        class: OVERFLOWS_LOCKED,
        changes: &[],
        status: 1,
        text: "\
            8\n\
            init returned\n\
            thread 1 uncaught java/lang/StackOverflowError\n\
            thread 2 uncaught java/lang/StackOverflowError\n\
            done returned\n\
            counts 0 instructions 15 elided 0 failed 0 locked 1 inflated 0\n\
            counts 1 instructions 512 elided 0 failed 0 locked 1 inflated 1\n\
            counts 2 instructions 512 elided 0 failed 0 locked 1 inflated 0\n\
        ",
    },
    // An attempt has room for just its frames.
    Run {
        options: &[],
        order: &[],
        class: OVERFLOWS_ATTEMPT,
        changes: &[],
        status: 0,
        text: "\
            8\n\
            init returned\n\
            done returned\n\
            counts 0 instructions 31 elided 1 failed 0 locked 0 inflated 0\n\
        ",
    },
    // With one local more it ends by the exception.
    Run {
        options: &[],
        order: &[],
        class: OVERFLOWS_ATTEMPT,
        changes: &[(478, 183)],
        status: 0,
        text: "\
            7\n\
            init returned\n\
            done returned\n\
            counts 0 instructions 23 elided 1 failed 0 locked 0 inflated 0\n\
        ",
    },
    // The same with the lock.
    Run {
        options: &["--elide", "off"],
        order: &[],
        class: OVERFLOWS_ATTEMPT,
        changes: &[(478, 183)],
        status: 0,
        text: "\
            7\n\
            init returned\n\
            done returned\n\
            counts 0 instructions 23 elided 0 failed 0 locked 1 inflated 0\n\
        ",
    },
];
