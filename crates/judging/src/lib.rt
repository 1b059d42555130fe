#![tactic(auto)]
// What is decided of an event before anything is written: the number that refuses it, or where its number lies.
// Document 01, 'Numbers the box may answer with' and 'The channel table'.
ghost use Rattle.std.specs.Prelude.{◌≡◌, ◌<◌, [], length};
ghost use Rattle.larq.specs.Channel.{orderly, sound, window};
ghost use Rattle.ring.specs.Ring.{size};
ghost use Rattle.slots.specs.Slots.{current_in, oldest_in, latest_in};
ghost use Rattle.record.specs.Place.{record_of, sound_at, place_lent};
ghost use Rattle.judging.specs.Judge.{in_ring, times_of, in_shape, judged_says, judged_for, spot_for};

use larq::{Refused, WINDOW};
use record::{Lengths, Record};
use ring::Seq;
use slots::{SLOTS, WORDS, current, is_missing, latest, oldest, time_of};

// The record that a place's words hold.
fn read(words: &[u64]) -> Record
    requires { (current_in words.now < size) × (oldest_in words.now < size) }
    ensures { (result.current.0 ≡ current_in words.now) × (result.oldest.0 ≡ oldest_in words.now) × (result.latest ≡ latest_in words.now) }
{
    Record {
        current: Seq(current(words) as u16),
        oldest: Seq(oldest(words) as u16),
        latest: latest(words),
    }
}

// Whether C and M are numbers of the ring.
fn in_ring(words: &[u64]) -> bool
    ensures { result ≡ in_ring words.now }
{
    let last = Seq::SIZE as u64 - 1;
    (current(words) <= last) & (oldest(words) <= last)
}

// Whether the times of the missing among n numbers from `from` on do not fall, and none is later than the latest.
// As they do not fall, the last of them is the latest of them.
// Words and marks stay two parameters, here and below: each clause would take a struct of the two apart again.
fn in_order(words: &[u64], marks: &[u8], from: Seq, n: u16) -> bool
    ensures { result ≡ orderly 0 (latest_in words.now) (times_of words.now marks.now from.0 n) }
{
    let mut before: u64 = 0;
    for k in 0..n {
        let i = from.forward(k);
        if is_missing(marks, i) {
            let t = time_of(words, i);
            if t < before {
                return false;
            }
            before = t;
        }
    }
    before <= latest(words)
}

// Whether the window is not too wide, M is missing if anything is, and the times of missing numbers are in order.
#[tactic(auto, using(crate::proofs::Sounds::shape_none, crate::proofs::Sounds::shape_wide, crate::proofs::Sounds::shape_head, crate::proofs::Sounds::shape_times))]
fn in_shape(r: Record, words: &[u64], marks: &[u8]) -> bool
    ensures { result ≡ in_shape r.current.0 r.oldest.0 words.now marks.now }
{
    let n = r.span();
    if n == 0 {
        return true;
    }
    if WINDOW < n {
        return false;
    }
    if !is_missing(marks, r.oldest) {
        return false;
    }
    in_order(words, marks, r.oldest, n)
}

// Whether the record that these words and marks hold is not broken, however long they are.
#[tactic(auto, using(crate::proofs::Sounds::sound_ring, crate::proofs::Sounds::sound_shape))]
fn is_whole(words: &[u64], marks: &[u8]) -> bool
    ensures { result ≡ sound window (record_of words.now [] marks.now) }
{
    in_ring(words) && in_shape(read(words), words, marks)
}

// Whether a place's record is not broken. A place whose parts have other lengths has no such record.
pub fn is_sound(words: &[u64], marks: &[u8]) -> bool
    ensures { result ≡ sound_at words.now marks.now }
{
    ((words.len() == WORDS) & (marks.len() == SLOTS)) && is_whole(words, marks)
}

// The record that an event acts on, or what refuses it: the numbers 1, 2, 6 and 7, in this order. A tick and a close have no number of their own, and
// give 0. The words and marks at hand are measured here, whatever is told of their lengths; a caller that told them by `Lengths::of` pays nothing for it.
pub fn judge(
    words: &[u64],
    marks: &[u8],
    lent: Lengths,
    number: u16,
    time: u64,
) -> Result<Record, Refused>
    ensures { judged_says result
        ≡ judged_for (place_lent (length words.now) lent.handles (length marks.now) lent.up lent.returned lent.nack) words.now marks.now number time }
{
    let lent = Lengths {
        words: words.len(),
        marks: marks.len(),
        ..lent
    };
    if !lent.lent_enough() {
        return Err(Refused::Lent);
    }
    if Seq::SIZE <= number {
        return Err(Refused::Number);
    }
    if !is_whole(words, marks) {
        return Err(Refused::Broken);
    }
    if time < latest(words) {
        return Err(Refused::Earlier);
    }
    Ok(read(words))
}

// Where the number of a frame lies: it is M, while nothing is missing; ahead of C by so many; in the window and missing; waiting already or
// before M; or far. The first is what nearly every frame is, and is seen without the distance.
#[derive(Clone, Copy)]
pub enum Spot {
    Next,
    Ahead(u16),
    Missing,
    Unwanted,
    Far,
}

pub fn spot_of(r: Record, marks: &[u8], s: Seq) -> Spot
    ensures { result ≡ spot_for r marks.now s.0 }
{
    let c = r.current;
    let m = r.oldest;
    let n = r.span();
    if (s.0 == m.0) & (n == 0) {
        return Spot::Next;
    }
    let d = c.distance(s);
    if d.is_far() {
        return Spot::Far;
    }
    if d.is_ahead() {
        return Spot::Ahead(c.steps(s));
    }
    if n <= m.steps(s) {
        return Spot::Unwanted;
    }
    if is_missing(marks, s) {
        Spot::Missing
    } else {
        Spot::Unwanted
    }
}
