#![tactic(auto)]
// The table of 64 places that the host lends: what its slices hold, the place of a key, and where an event goes (document 01, 'The channel table').
mod key;
mod lookup;
mod way;

pub use key::{Key, StoredKey, address, first_word};
pub use slots::{SLOTS, WORDS};
pub use way::{DataPlace, data_way_of, is_whole, way_of};

// The layout of the lent table: its places, and how many words of the keys belong to one of them. What else belongs to a place is told by slots.
pub const PLACES: usize = 64;

pub const KEY_WORDS: usize = 2;

// How long its four slices are: the keys, the words, and the handles as the marks.
pub const KEYS_IN_ALL: usize = KEY_WORDS * PLACES;

pub const WORDS_IN_ALL: usize = WORDS * PLACES;

pub const SLOTS_IN_ALL: usize = SLOTS * PLACES;
