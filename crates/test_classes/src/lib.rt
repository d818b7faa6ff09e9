//! Class files for the tests of the other crates, each of which stands here once.
#![tactic(auto)]

mod bytes;
mod class_sections;
mod ints;
mod meetings;
mod objects;
mod overflows;
mod pairs;
mod sections;
mod single;
mod statics;
mod texts;
mod torn;

pub use bytes::{bytes_of, changed};
pub use class_sections::{CLASS_MARKS, CLASS_PAIR, CLASS_READS};
pub use ints::{
    BRANCHES, BRANCHES_PRINTS, COMPUTES, COMPUTES_PRINTS, EDGES, EDGES_PRINTS, LOADS_CONSTANTS,
    LOADS_CONSTANTS_PRINTS, LOCALS, LOCALS_PRINTS, MOVES, MOVES_PRINTS, NARROWS, NARROWS_PRINTS,
    QUOTIENTS, QUOTIENTS_PRINTS, SHIFTS, SHIFTS_PRINTS, STACK_MOVES, STACK_MOVES_PRINTS, SUMS,
    SUMS_PRINTS, SWITCHES, SWITCHES_PRINTS,
};
pub use meetings::{BANK, LOCKS_OUT, RECORDS, ROUNDS, SPINS, WAITS, WAITS_DEEP};
pub use objects::{ARRAYS, BOOLEANS, FIELDS, FILLS_HEAP, INVOKES, MONITORS, THROWS};
pub use overflows::{
    CATCHES_DEEPEST, DESCENDS, DESCENDS_WIDE, FILLS_SLOTS, OVERFLOWS_ATTEMPT, OVERFLOWS_LOCKED,
    OVERFLOWS_TWICE,
};
pub use pairs::{SHARED, SHARED_AND_DONE, TWICE, UNLOCKED};
pub use sections::{
    ARRAY_PAIR, CLASS_LOCKS, STORES_THIS, calls, counts_up, kept, marks, stores_this, ticks,
};
pub use single::{
    ADDS_TWICE, ALL_PARTS, CALLS_ITSELF, CATCHES_BY_CLASS, DIVIDES_BY_ZERO, INDEXES_AND_THROWS,
    KEEPS_LOW_BIT, LEAVES_BY_EXCEPTION, MAKES_ARRAY, MEASURES_NULL, NEEDS_SLOTS, SETS_AND_SUMS,
};
pub use statics::with_statics;
pub use texts::{ADDS, PAIR, adds, below_exception, constants, kinds, pair, peeks, tally, work};
pub use torn::{COUNTS, DIVIDES, DIVIDES_AT_REST};
