#![tactic(auto)]
// Where a place keeps what (specs/Slots.antt, docs/LAYOUT.md): every other crate asks here, by the number and not by the slot. Each function takes any
// input: what is not there reads as 0, and is not written. The host lends the parts as slices of its own, so they lie beside each other and are no one struct.
ghost use Rattle.std.specs.Prelude.{◌≡◌, get_or, set};
ghost use Rattle.slots.specs.Slots.{slot_of, place_sized, current_in, oldest_in, latest_in, is_missing, time_at, handle_at, with_head, with_latest, with_time, with_handle, with_missing, with_waiting};

use ring::Seq;

// How many slots a place has, with a time, a handle and a mark each.
pub const SLOTS: usize = 32;

// How many words it has: the times stand behind C, M and the latest time.
pub const WORDS: usize = TIMES + SLOTS;

const CURRENT: usize = 0;

const OLDEST: usize = 1;

const LATEST: usize = 2;

const TIMES: usize = 3;

// A mark is an octet of the table that the host lends (docs/LAYOUT.md), and any but 0 waits: so it is no enum.
const MISSING: u8 = 0;

const WAITS: u8 = 1;

// Whether parts of these lengths are those of a place.
pub fn is_place(words: usize, handles: usize, marks: usize) -> bool
    ensures { result ≡ place_sized words handles marks }
{
    (words == WORDS) & ((handles == SLOTS) & (marks == SLOTS))
}

// The slot of number n.
fn slot(n: Seq) -> usize
    ensures { result ≡ slot_of n.0 }
{
    usize::from(n.0) % SLOTS
}

// What a part of a place has at i, where it reaches so far.
fn entry<T: Copy>(part: &[T], i: usize, absent: T) -> T
    ensures { result ≡ get_or part.now i absent }
{
    part.get(i).copied().unwrap_or(absent)
}

// C, which may be any word: whether it is a number is for others to test.
pub fn current(words: &[u64]) -> u64
    ensures { result ≡ current_in words.now }
{
    entry(words, CURRENT, 0)
}

// M, which may be any word too.
pub fn oldest(words: &[u64]) -> u64
    ensures { result ≡ oldest_in words.now }
{
    entry(words, OLDEST, 0)
}

// The latest time.
pub fn latest(words: &[u64]) -> u64
    ensures { result ≡ latest_in words.now }
{
    entry(words, LATEST, 0)
}

// Whether number n is missing; else it waits.
pub fn is_missing(marks: &[u8], n: Seq) -> bool
    ensures { result ≡ is_missing marks.now (slot_of n.0) }
{
    entry(marks, slot(n), 0) == MISSING
}

// Since when number n is missing. The times are lent on by themselves: with the sum of both offsets the compiler works the slot out twice where its
// mark was read before. And by `get`, with a closure on what it finds, an address takes an instruction more.
pub fn time_of(words: &[u64], n: Seq) -> u64
    ensures { result ≡ time_at words.now (slot_of n.0) }
{
    if TIMES <= words.len() {
        entry(&words[TIMES..], slot(n), 0)
    } else {
        0
    }
}

// The handle with which number n waits.
pub fn handle_of(handles: &[u32], n: Seq) -> u32
    ensures { result ≡ handle_at handles.now (slot_of n.0) }
{
    entry(handles, slot(n), 0)
}

// A part of a place anew at i, where it reaches so far. (`get_mut` says nothing of what the slice ends as.)
fn set<T: Copy>(part: &mut [T], i: usize, value: T)
    ensures { part.new ≡ set part.old i value }
{
    if i < part.len() {
        part[i] = value;
    }
}

// C, M and the latest time anew.
pub fn set_head(words: &mut [u64], current: Seq, oldest: Seq, latest: u64)
    ensures { words.new ≡ with_head words.old current.0 oldest.0 latest }
{
    set(words, CURRENT, u64::from(current.0));
    set(words, OLDEST, u64::from(oldest.0));
    set(words, LATEST, latest);
}

// The latest time anew.
pub fn set_latest(words: &mut [u64], time: u64)
    ensures { words.new ≡ with_latest words.old time }
{
    set(words, LATEST, time);
}

// Number n is missing since `time`.
pub fn set_missing(words: &mut [u64], marks: &mut [u8], n: Seq, time: u64)
    ensures { (words.new ≡ with_time words.old (slot_of n.0) time) × (marks.new ≡ with_missing marks.old (slot_of n.0)) }
{
    let j = slot(n);
    set(words, TIMES + j, time);
    set(marks, j, MISSING);
}

// Number n waits with its handle.
pub fn set_waiting(handles: &mut [u32], marks: &mut [u8], n: Seq, handle: u32)
    ensures { (handles.new ≡ with_handle handles.old (slot_of n.0) handle) × (marks.new ≡ with_waiting marks.old (slot_of n.0)) }
{
    let j = slot(n);
    set(handles, j, handle);
    set(marks, j, WAITS);
}
