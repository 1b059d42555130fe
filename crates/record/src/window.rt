// The loops that pass or read the numbers of a window, in place (document 01, 'Settling', 'Tick' and what is said of waiting handles).
ghost use Rattle.std.specs.Prelude.{◌≡◌, cond, ◌-◌, length};
ghost use Rattle.record.specs.Moving.{span_in, stored_in};
ghost use Rattle.record.specs.Walk.{Settles, most, settle_numbers, hand_numbers, waiting_of};
ghost use Rattle.record.specs.Buffers.{Laid};

use crate::{Cell, Record};
use ring::Seq;
use slots::{WORDS, handle_of, is_missing, is_place};

// A record whose M has moved on, how many handles went up, and how many numbers were given up.
#[derive(Clone, Copy)]
pub struct Settled {
    pub kept: Record,
    pub up: usize,
    pub lost: usize,
}

// No time lies before 0: until then nothing is missing for too long.
pub const NEVER: u64 = 0;

// As many of n numbers as a buffer has room for from `at` on.
fn least(n: u16, at: usize, length: usize) -> u16
    ensures { result ≡ most n (length - at) }
{
    (n as usize).min(length.saturating_sub(at)) as u16
}

// All n numbers, or none.
fn all_or_none(all: bool, n: u16) -> u16
    ensures { result ≡ cond all n 0 }
{
    if all { n } else { 0 }
}

impl Record {
    // M moves on while it waits, and goes up, or is missing since before `until`, and is given up. What goes up is laid into `up` from `at` on.
    // M passes no more numbers than there is room for, and none where the parts are not those of a place.
    // Parts and buffers stay parameters: the check does not cover a call that lends one field of a borrowed struct as `&mut` and reads another, and every
    // contract would have to say that the fields still lend the same slices. `up` and `at` stay two: what a call hands up is told of the whole buffer.
    pub fn settled(
        self,
        words: &[u64],
        handles: &[u32],
        marks: &[u8],
        up: &mut [u32],
        at: usize,
        until: u64,
    ) -> Settled
        ensures { Settles self (settle_numbers words.now handles.now marks.now (span_in self) at up.old) until
            words.now handles.now marks.now at up.old up.new result }
    {
        let numbers = all_or_none(
            is_place(words.len(), handles.len(), marks.len()),
            least(self.span(), at, up.len()),
        );
        let mut kept = self;
        let mut gone: usize = 0;
        let mut lost: usize = 0;
        for _ in 0..numbers {
            match Cell::of(words, handles, marks, kept.oldest) {
                Cell::Missing(since) => {
                    if until <= since {
                        break;
                    }
                    lost += 1;
                }
                Cell::Waits(handle) => {
                    up[at + gone] = handle;
                    gone += 1;
                }
            }
            kept = kept.moved(1);
        }
        Settled {
            kept,
            up: gone,
            lost,
        }
    }

    // M settles, and the record that is left is laid down in the place.
    pub fn settle(
        self,
        words: &mut [u64],
        handles: &[u32],
        marks: &[u8],
        up: &mut [u32],
        at: usize,
        until: u64,
    ) -> Settled
        ensures settles { Settles self (settle_numbers words.old handles.now marks.now (span_in self) at up.old) until
            words.old handles.now marks.now at up.old up.new result }
        ensures words_after { words.new ≡ stored_in result.kept words.old }
    {
        let done = self.settled(words, handles, marks, up, at, until);
        done.kept.stored(words);
        done
    }
}

// Lays the handles that wait among n numbers from `from` on into `out`: how many they are. It lays none where the slots are not those of a place
// or n of them have no room.
pub fn hand(handles: &[u32], marks: &[u8], from: Seq, n: u16, out: &mut [u32]) -> usize
    ensures { Laid (waiting_of handles.now marks.now from.0 (hand_numbers handles.now marks.now n out.old))
        0 out.old out.new result }
{
    let numbers = all_or_none(
        is_place(WORDS, handles.len(), marks.len()) & (n as usize <= out.len()),
        n,
    );
    let mut to: usize = 0;
    for k in 0..numbers {
        let i = from.forward(k);
        if !is_missing(marks, i) {
            out[to] = handle_of(handles, i);
            to += 1;
        }
    }
    to
}
