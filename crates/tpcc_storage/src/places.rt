//! Where the row of a key stands, told from its numbers alone.
//!
//! Numbers go up from 1, and where none is missing the places are exact. They are only a guess:
//! whoever asks looks whether the row is there, so that nothing rests on them.

/// The place of number `number` of those of number `group`, where each group has `size`.
pub fn of_group(group: u32, size: u32, number: u32) -> usize {
    let before = (group as usize).wrapping_sub(1).wrapping_mul(size as usize);
    before.wrapping_add(number as usize).wrapping_sub(1)
}

/// The place of a district among those of all warehouses, of which each has 10 (1.2.1).
pub fn of_district(warehouse: u32, district: u32) -> usize {
    of_group(warehouse, 10, district)
}

/// The place of a number, where the first one is `first`.
pub fn after_first(first: u32, number: u32) -> usize {
    (number as usize).wrapping_sub(first as usize)
}
