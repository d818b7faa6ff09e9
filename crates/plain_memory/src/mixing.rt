//! Numbers by which equal things are found. Equal things have equal ones; no clause rests on them.

/// A number from the one of what comes before and the next value (the multiplier and the shift of
/// MurmurHash3's last steps).
pub fn mixed(before: u64, value: u64) -> u64 {
    let number = (before ^ value).wrapping_mul(0xff51_afd7_ed55_8ccd);
    number ^ (number >> 33)
}
