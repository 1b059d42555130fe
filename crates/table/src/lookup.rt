// The place of a key in the table: the first that stores it. A channel is opened at the first that is free (document 01, 'The channel table').
ghost use Rattle.std.specs.Prelude.{◌≡◌, ◌-◌, ◌<◌, ◌≤◌, length};
ghost use Rattle.table.specs.Table.{table_keys};
ghost use Rattle.table.specs.First.{first_from, first_place, has_word, stores, stores_none, places};

use crate::{KEY_WORDS, KEYS_IN_ALL, PLACES};

// Whether place i stores the key of these two words.
fn is_stored(keys: &[u64], i: usize, first: u64, second: u64) -> bool
    requires { (length keys.now ≡ table_keys) × (i < places) }
    ensures { result ≡ stores keys.now first second i }
{
    (keys[KEY_WORDS * i] == first) & (keys[KEY_WORDS * i + 1] == second)
}

// The first place whose key has this word: the first word where `which` is 0, the source where it is 1. A lookup at a late place takes its time
// here: one test a place, and one counter, of the words before the place. Document 01 asks for a loop that yields the place by `break`.
#[tactic(auto, using(crate::proofs::Walking::goes_on, crate::proofs::Walking::ends, crate::proofs::Walking::found))]
fn first_with(keys: &[u64], which: usize, word: u64) -> Option<usize>
    requires { (length keys.now ≡ table_keys) × (which < 2) }
    ensures { result ≡ first_place (has_word keys.now which word) }
{
    let mut j = 0;
    let place = loop {
        if j == KEYS_IN_ALL {
            break None;
        }
        if keys[j + which] == word {
            break Some(j / KEY_WORDS);
        }
        j += KEY_WORDS;
    };
    place
}

// The first place from `from` on that stores the key of these two words. Its loop is the same form.
#[tactic(auto, using(crate::proofs::First::here, crate::proofs::First::past, crate::proofs::First::none))]
fn find_from(keys: &[u64], from: usize, first: u64, second: u64) -> Option<usize>
    requires { (length keys.now ≡ table_keys) × (from ≤ places) }
    ensures { result ≡ first_from (stores keys.now first second) from (places - from) }
{
    let mut i = from;
    let place = loop {
        if i >= PLACES {
            break None;
        }
        if is_stored(keys, i, first, second) {
            break Some(i);
        }
        i += 1;
    };
    place
}

// The first place that stores the key of these two words. It is mostly the first of that source; where that is another channel of the source,
// whole keys are compared from there on. It takes the two words alone: the priority beside them has no part in it.
#[tactic(auto, using(crate::proofs::Walking::unknown_source, crate::proofs::Walking::inside, crate::proofs::Walking::its_first, crate::proofs::Walking::a_later_one))]
pub(crate) fn find(keys: &[u64], first: u64, second: u64) -> Option<usize>
    requires { length keys.now ≡ table_keys }
    ensures { result ≡ first_place (stores keys.now first second) }
{
    let i = first_with(keys, 1, second)?;
    if keys[KEY_WORDS * i] == first {
        return Some(i);
    }
    find_from(keys, i + 1, first, second)
}

// The first free place: the first word of its key is 0.
pub(crate) fn find_free(keys: &[u64]) -> Option<usize>
    requires { length keys.now ≡ table_keys }
    ensures { result ≡ first_place (stores_none keys.now) }
{
    first_with(keys, 0, 0)
}
