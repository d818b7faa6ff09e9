//! The limit of a load.

/// The most methods that add, and with it the greatest size of a load.
pub const MOST_METHODS: u32 = 1000;
