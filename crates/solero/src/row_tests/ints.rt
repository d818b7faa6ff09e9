//! Instructions of ints, branches and the stack on chosen values.

use super::Run;
use test_classes::{
    BRANCHES, BRANCHES_PRINTS, EDGES, EDGES_PRINTS, LOADS_CONSTANTS, LOADS_CONSTANTS_PRINTS,
    LOCALS, LOCALS_PRINTS, NARROWS, NARROWS_PRINTS, QUOTIENTS, QUOTIENTS_PRINTS, SHIFTS,
    SHIFTS_PRINTS, STACK_MOVES, STACK_MOVES_PRINTS, SUMS, SUMS_PRINTS, SWITCHES, SWITCHES_PRINTS,
};

pub const INTS: [Run; 10] = [
    // Constants of each form, the least and the greatest, with indices above 127 and above 255.
    Run {
        options: &[],
        order: &[],
        class: LOADS_CONSTANTS,
        changes: &[],
        status: 0,
        text: LOADS_CONSTANTS_PRINTS,
    },
    // Locals in each form, up to number 255, with ints and with references.
    Run {
        options: &[],
        order: &[],
        class: LOCALS,
        changes: &[],
        status: 0,
        text: LOCALS_PRINTS,
    },
    // Sums, differences, products, negation and bits, with what passes the range.
    Run {
        options: &[],
        order: &[],
        class: SUMS,
        changes: &[],
        status: 0,
        text: SUMS_PRINTS,
    },
    // Quotients and remainders: the signs, the least int by -1, and a divisor of 0, which is
    // caught.
    Run {
        options: &[],
        order: &[],
        class: QUOTIENTS,
        changes: &[],
        status: 0,
        text: QUOTIENTS_PRINTS,
    },
    // Shifts of 1, -1, the least and the greatest int, each by 0, 1, 31, 32, 33 and -1.
    Run {
        options: &[],
        order: &[],
        class: SHIFTS,
        changes: &[],
        status: 0,
        text: SHIFTS_PRINTS,
    },
    // Narrowing at the edges of each width, and locals that are incremented past the range.
    Run {
        options: &[],
        order: &[],
        class: NARROWS,
        changes: &[],
        status: 0,
        text: NARROWS_PRINTS,
    },
    // Folds of what each instruction makes of all pairs of eight edges.
    Run {
        options: &[],
        order: &[],
        class: EDGES,
        changes: &[],
        status: 0,
        text: EDGES_PRINTS,
    },
    // Each condition, taken (1) and not (2), and jumps forth and back.
    Run {
        options: &[],
        order: &[],
        class: BRANCHES,
        changes: &[],
        status: 0,
        text: BRANCHES_PRINTS,
    },
    // Keys below, in, between and above those of both switches, at each distance to a multiple of
    // four.
    Run {
        options: &[],
        order: &[],
        class: SWITCHES,
        changes: &[],
        status: 0,
        text: SWITCHES_PRINTS,
    },
    // What each stack instruction leaves, from the top down, with 0 behind it; then with
    // references.
    Run {
        options: &[],
        order: &[],
        class: STACK_MOVES,
        changes: &[],
        status: 0,
        text: STACK_MOVES_PRINTS,
    },
];
