//! The fixed words of the machine, in order: null's; the next free word; the next ticket; the next
//! monitor record; the monitor records; the ready objects; then of each class of the files a lock
//! word, a header and its static fields.

/// The number of the next free word.
pub const NEXT_FREE_WORD: u32 = 1;

/// The ticket of the next print.
pub const NEXT_TICKET_WORD: u32 = 2;

/// The next monitor record.
pub const NEXT_RECORD_WORD: u32 = 3;

/// The first word of the monitor records, which have two each.
pub const FIRST_RECORD_WORD: u32 = 4;

/// How many monitor records there are.
pub const MONITOR_RECORDS: u32 = 1024;

/// The words that each object has before its fields or elements: its lock word and its header.
pub const OBJECT_HEAD_WORDS: u32 = 2;

/// The class numbers that fit the low part of a header; the length of an array stands above it.
pub const HEADER_CLASSES: u64 = 65_536;

/// How many ready objects there are: seven throwables and `System.out`, none with a field.
pub const READY_OBJECTS: u32 = 8;

/// The first word of the ready objects.
pub const FIRST_READY_WORD: u32 = FIRST_RECORD_WORD + 2 * MONITOR_RECORDS;

/// The first word of the first class of the files.
pub const FIRST_CLASS_WORD: u32 = FIRST_READY_WORD + OBJECT_HEAD_WORDS * READY_OBJECTS;
