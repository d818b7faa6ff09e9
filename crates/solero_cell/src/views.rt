//! What a seat of a cell knows. Contracts and proofs alone speak of these values; of all but
//! `Record` none is made.

use lists::Rows;

/// The values that a cell had under one count.
#[derive(Drop)]
pub struct Record {
    pub count: u64,
    pub values: Rows<u64>,
}

/// A write that is under way: the values that it has stored, and those that it has still to store.
pub struct Storing {
    pub stored: Rows<u64>,
    pub left: Rows<u64>,
}

/// A fraction: so many parts of 2^depth.
pub struct Share {
    pub parts: u64,
    pub depth: u64,
}

/// What the lock word of a cell is.
#[derive(Clone, Copy)]
pub enum Moment {
    /// The free word with this count, which is the cell's last.
    AtRest(u64),
    /// The held word: the write behind this count is under way.
    UnderWay(u64),
}

/// A step of a seat on the lock word: its place among all such steps of the cell, from 0, and what
/// the word is behind it. A load leaves the word that it finds.
#[derive(Clone, Copy)]
pub struct Look {
    pub place: u64,
    pub moment: Moment,
}

/// What a seat knows of its cell.
pub struct View {
    /// What the cell was opened with.
    pub opening: Record,
    /// Its own writes, in their order.
    pub writes: Rows<Record>,
    /// What it read or wrote last, or the latest that it was told of.
    pub latest: Record,
    /// The count that it found free when a read's attempt or a write began last.
    pub note: Option<u64>,
    /// How many such counts it has noted.
    pub notes: u64,
    /// How many of its reads were Got.
    pub reads: u64,
    /// How many of its tries failed, and the word that the last of them found.
    pub failed: u64,
    pub found: Option<u64>,
    /// Its steps on the lock word, in their order.
    pub looks: Rows<Look>,
    /// Its part of the right to know all seats.
    pub share: Share,
    /// In the middle of a read: the values loaded since the note.
    pub loaded: Rows<u64>,
    /// In the middle of a write.
    pub storing: Option<Storing>,
    /// In the middle of a join: the latest record of the other seat.
    pub joining: Option<Record>,
}
