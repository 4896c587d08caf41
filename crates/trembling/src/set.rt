// A set of larger places, by value.
use sets::places::Places;

// How many words a set of larger places has, and how many larger places it has room for.
pub const LARGER_WORDS: usize = 1024;

pub const ROOM: usize = 64 * LARGER_WORDS;

/// A set of the larger places of a job.
pub type LargerSet = Places<LARGER_WORDS>;
