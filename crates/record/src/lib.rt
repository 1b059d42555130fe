#![tactic(auto)]
// A channel's record by value: C, M and the latest time. Its cells stay in the lent parts (document 01, 'The channel table').
// What becomes of its window is said here; the loops over a window's slots are in window.rt. What is decided of an event is judging's, the
// step ahead in place stepping's.
ghost use Rattle.std.specs.Prelude.{◌≡◌};
ghost use Rattle.ring.specs.Ring.{forward, next};
ghost use Rattle.larq.specs.Channel.{window, span_of};
ghost use Rattle.larq.specs.Table.{lent_enough};
ghost use Rattle.record.specs.Lengths.{lengths_of, lent_by};
ghost use Rattle.record.specs.Moving.{IsGrown, stored_in};

mod cell;
mod window;

pub use cell::Cell;
use larq::{WINDOW, has_room};
use ring::Seq;
use slots::{is_place, set_head};
pub use window::{NEVER, Settled, hand};

#[derive(Clone, Copy)]
pub struct Record {
    pub current: Seq,
    pub oldest: Seq,
    pub latest: u64,
}

// What a step ahead does to the window: M passes `over` numbers, of which `old` are in the window and the others would be new;
// `count` numbers from `first` on become missing.
#[derive(Clone, Copy)]
pub struct Grown {
    pub kept: Record,
    pub over: usize,
    pub old: u16,
    pub first: Seq,
    pub count: u16,
}

// How long the parts of a place or of the table and the three answer buffers are that are lent for a call.
#[derive(Clone, Copy)]
pub struct Lengths {
    pub words: usize,
    pub handles: usize,
    pub marks: usize,
    pub up: usize,
    pub returned: usize,
    pub nack: usize,
}

impl Lengths {
    // Of these parts and buffers.
    pub fn of(
        words: &[u64],
        handles: &[u32],
        marks: &[u8],
        up: &[u32],
        returned: &[u32],
        nack: &[u16],
    ) -> Lengths
        ensures { result ≡ lengths_of words.now handles.now marks.now up.now returned.now nack.now }
    {
        Lengths {
            words: words.len(),
            handles: handles.len(),
            marks: marks.len(),
            up: up.len(),
            returned: returned.len(),
            nack: nack.len(),
        }
    }

    // Whether they are those of a place, and of buffers that hold any answer: number 1.
    pub fn lent_enough(self) -> bool
        ensures { result ≡ lent_enough window (lent_by self) }
    {
        has_room(self.up, self.returned, self.nack) & is_place(self.words, self.handles, self.marks)
    }
}

impl Record {
    // The record of a channel that s has just opened: nothing is missing.
    pub fn opened(s: Seq, time: u64) -> Self
        ensures { (result.current.0 ≡ s.0) × (result.oldest.0 ≡ next s.0) × (result.latest ≡ time) }
    {
        Record {
            current: s,
            oldest: s.forward(1),
            latest: time,
        }
    }

    // How many numbers there are from M to C.
    pub fn span(self) -> u16
        ensures { result ≡ span_of self.current.0 self.oldest.0 }
    {
        self.oldest.steps(self.current.forward(1))
    }

    // M moves on by so many numbers.
    pub fn moved(mut self, by: u16) -> Self
        ensures { (result.current.0 ≡ self.current.0) × (result.oldest.0 ≡ forward self.oldest.0 by) × (result.latest ≡ self.latest) }
    {
        self.oldest = self.oldest.forward(by);
        self
    }

    // C is s, at this time.
    pub fn arrived(mut self, s: Seq, time: u64) -> Self
        ensures { (result.current.0 ≡ s.0) × (result.oldest.0 ≡ self.oldest.0) × (result.latest ≡ time) }
    {
        self.current = s;
        self.latest = time;
        self
    }

    // C, M and the latest time are laid down in a place's words, where there are so many.
    pub fn stored(self, words: &mut [u64])
        ensures { words.new ≡ stored_in self words.old }
    {
        set_head(words, self.current, self.oldest, self.latest);
    }

    // C comes to s at this time, with `made` numbers from C + 1 on missing, and M passes what is then too much for the window.
    pub fn grown(self, s: Seq, made: u16, time: u64) -> Grown
        ensures { IsGrown self s.0 made time result }
    {
        let c = self.current;
        let n = self.span();
        let over = (n + c.steps(s)).saturating_sub(WINDOW);
        let past = over.saturating_sub(n);
        Grown {
            kept: self.arrived(s, time).moved(over),
            over: over as usize,
            old: over - past,
            first: c.forward(1 + past),
            count: made.saturating_sub(past),
        }
    }
}
