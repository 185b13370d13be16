//! The limits of a script.

/// How many bytes a line has at most, without its line feed.
pub const LONGEST_LINE: usize = 4_096;

/// How many lines a script has at most.
pub const MOST_LINES: u32 = 1_000_000;
