#![tactic(auto)]
// The step ahead, in place: C comes to a number that lies ahead of it (document 01, 'Data' and 'Reminder'). It ends where frames and reminders
// differ: before that number waits or not, and M settles.
ghost use Rattle.std.specs.Prelude.{◌≡◌, ◌≤◌, length};
ghost use Rattle.ring.specs.Ring.{steps};
ghost use Rattle.record.specs.Moving.{span_in};
ghost use Rattle.record.specs.Lengths.{lent_by};
ghost use Rattle.stepping.specs.Step.{Missed, can_widen, unmoved, Widens};

use larq::WINDOW;
use record::{Grown, Lengths, Record, hand};
use ring::Seq;
use slots::set_missing;

// What a call answers, so far or in all: handles gone up, numbers asked for, numbers given up. It is handed on instead of an answer, which is
// put together once.
#[derive(Clone, Copy)]
pub struct Counts {
    pub up: usize,
    pub nack: usize,
    pub lost: usize,
}

impl Counts {
    pub const NONE: Counts = Counts {
        up: 0,
        nack: 0,
        lost: 0,
    };
}

// What a step ahead has done so far: the window that it leaves, and what it has answered.
#[derive(Clone, Copy)]
pub struct Passed {
    pub grown: Grown,
    pub had: Counts,
}

// Makes n numbers from `from` on missing at this time, and asks for them. The number itself goes along: the first is asked for as it is, and may be
// any u16.
// Parts and buffers stay parameters, as in record.
fn miss(words: &mut [u64], marks: &mut [u8], nack: &mut [u16], from: Seq, n: u16, time: u64)
    requires { n ≤ length nack.old }
    ensures { Missed from.0 n time words.old marks.old nack.old words.new marks.new nack.new }
{
    let mut i = from;
    for k in 0..n {
        set_missing(words, marks, i, time);
        nack[k as usize] = i.0;
        i = i.forward(1);
    }
}

// Whether parts and buffers are as long as they should be, the window is not too wide, and C goes on by `made` numbers at least.
fn can_widen(r: Record, lent: Lengths, s: Seq, made: u16) -> bool
    ensures { result ≡ can_widen (lent_by lent) (span_in r) made (steps r.current.0 s.0) }
{
    lent.lent_enough() & ((r.span() <= WINDOW) & (made <= r.current.steps(s)))
}

// No step: nothing is passed, and nothing becomes missing.
fn unmoved(r: Record) -> Grown
    ensures { result ≡ unmoved r }
{
    Grown {
        kept: r,
        over: 0,
        old: 0,
        first: r.current,
        count: 0,
    }
}

// C comes to s: what is then too much for the window is passed, and `made` numbers from C + 1 on become missing. Where that cannot be,
// nothing is done.
pub fn widened(
    r: Record,
    words: &mut [u64],
    handles: &[u32],
    marks: &mut [u8],
    up: &mut [u32],
    nack: &mut [u16],
    s: Seq,
    made: u16,
    time: u64,
) -> Passed
    ensures { Widens r s.0 made time words.old handles.now marks.old up.old nack.old
        words.new marks.new up.new nack.new result }
{
    let lent = Lengths::of(words, handles, marks, up, up, nack);
    if !can_widen(r, lent, s, made) {
        return Passed {
            grown: unmoved(r),
            had: Counts::NONE,
        };
    }
    let g = r.grown(s, made, time);
    let passed = hand(handles, marks, r.oldest, g.old, up);
    miss(words, marks, nack, g.first, g.count, time);
    let had = Counts {
        up: passed,
        nack: g.count as usize,
        lost: g.over - passed,
    };
    Passed { grown: g, had }
}
