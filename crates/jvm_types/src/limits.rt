//! The limits of the machine and of the files that it takes.

/// The most bytes of a class file.
pub const MOST_FILE_BYTES: usize = 1_048_576;

/// The first major version that a class file may have (JVMS 4.1).
pub const FIRST_VERSION: u16 = 45;

/// The last one: that of SE 6.
pub const LAST_VERSION: u16 = 50;

/// The most items of a list that a class file counts in two bytes (JVMS 4).
pub const MOST_COUNTED: usize = 65_535;

/// The most bytes of the code of a method (JVMS 4.7.3).
pub const MOST_CODE_BYTES: usize = 65_535;

/// The most files of a program.
pub const MOST_FILES: usize = 64;

/// The most methods of a program: a class file counts its own in two bytes.
pub const MOST_METHODS: usize = MOST_FILES * MOST_COUNTED;

/// The most instructions of a program: so many files have no more bytes.
pub const MOST_INSTRUCTIONS: usize = MOST_FILES * MOST_FILE_BYTES;

/// The most worker threads.
pub const MOST_WORKERS: u8 = 8;

/// The fewest heap words.
pub const LEAST_HEAP: u32 = 4096;

/// The most heap words.
pub const MOST_HEAP: u32 = 1_048_576;

/// The most frames of one thread.
pub const MOST_FRAMES: usize = 256;

/// The most slots of the frames of one thread, their locals and their stacks.
pub const MOST_SLOTS: u32 = 16_384;

/// How often a section is tried without its lock at one entry.
pub const MOST_ATTEMPTS: u8 = 2;

/// The failed turn of one entry from which on a flat lock is flagged.
pub const FLAG_FROM: u32 = 64;

/// The most prints of one thread that a run may allow.
pub const MOST_PRINTS: u32 = 1_048_576;

/// The greatest limit of a run, and so the most that a thread counts.
pub const MOST_LIMIT: u32 = 4_294_967_295;
