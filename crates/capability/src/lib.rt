#![tactic(auto)]
// The capability sets of one station: what it announces, what it hears from others, when it sends a frame and what its retransmit timer does.
// Document 01, 'Capability sets'; 001, 6.5.3 to 6.5.5. Each of the 32 bits is a flag, and every word is a set, so no station is refused.
mod opcode;
mod refused;

ghost use Rattle.std.specs.Prelude.{◌≡◌};
ghost use Rattle.capability.specs.Sets.{current_tx, current_rx, carried};
ghost use Rattle.capability.specs.Answers.{order_of, order_number, start_if, cancel_then_start_if, outcome_of, outcome_or, outcome_as, accepted};
ghost use Rattle.capability.specs.Events.{fresh, unannounced, added_tx, rolled_tx, rolled_rx, really_new, taken_away, heard_rx, used, ended, received};

use crate::opcode::Opcode;
pub use refused::Refused;

// NewTx, PreviousTx and OldestTx: the flags that the station used in this period, the one before, and the one before that.
#[derive(Clone, Copy)]
pub struct Tx {
    pub new: u32,
    pub previous: u32,
    pub oldest: u32,
}

// NewRx and PreviousRx: the flags that others announced in this period and the one before.
#[derive(Clone, Copy)]
pub struct Rx {
    pub new: u32,
    pub previous: u32,
}

#[derive(Clone, Copy)]
pub struct Station {
    pub default: u32,
    pub tx: Tx,
    pub rx: Rx,
}

// The sets in a capability frame: OldestTx, CurrentTx and CurrentRx of its sender.
#[derive(Clone, Copy)]
pub struct Frame {
    pub oldest: u32,
    pub current: u32,
    pub heard: u32,
}

// The order for the retransmit timer, which runs in the host.
#[derive(Clone, Copy)]
pub enum Timer {
    // As it was, running or not.
    Kept,
    // Cancelled if it runs, and started anew.
    Started,
    // Cancelled if it runs.
    Cancelled,
}

// The answer to an event that is not refused. A frame is to be sent now if `sends`; `frame` has the sets as they now are, sent or not; `reported` are the flags that are
// really new.
#[derive(Clone, Copy)]
pub struct Answer {
    pub station: Station,
    pub sends: bool,
    pub frame: Frame,
    pub reported: u32,
    pub timer: Timer,
}

// For a host that takes numbers: 0 kept, 1 started, 2 cancelled.
impl From<Timer> for u8 {
    ghost from_gives = { λ timer number. number ≡ order_number (order_of timer) };

    fn from(timer: Timer) -> u8 {
        match timer {
            Timer::Kept => 0,
            Timer::Started => 1,
            Timer::Cancelled => 2,
        }
    }
}

impl Timer {
    // The paper gives two orders, and each has its name: 'started if', and 'cancelled, and started if'.
    fn start_if(starts: bool) -> Timer
        ensures { order_of result ≡ start_if starts }
    {
        if starts { Timer::Started } else { Timer::Kept }
    }

    fn cancel_then_start_if(starts: bool) -> Timer
        ensures { order_of result ≡ cancel_then_start_if starts }
    {
        if starts {
            Timer::Started
        } else {
            Timer::Cancelled
        }
    }
}

impl Tx {
    // CurrentTx. It is written here and at `Rx`, since a struct of `new` and `previous` inside both would put one more name into each path to a set.
    pub fn current(self) -> u32
        ensures { result ≡ current_tx self }
    {
        self.new | self.previous
    }

    // Those of the flags that are in neither NewTx nor PreviousTx.
    fn unannounced(self, flags: u32) -> u32
        ensures { result ≡ unannounced self flags }
    {
        flags & !self.current()
    }

    fn added(mut self, flags: u32) -> Tx
        ensures { result ≡ added_tx self flags }
    {
        self.new = self.new | flags;
        self
    }

    fn rolled(mut self, default: u32) -> Tx
        ensures { result ≡ rolled_tx default self }
    {
        self.oldest = self.previous;
        self.previous = self.new;
        self.new = default;
        self
    }
}

impl Rx {
    // CurrentRx.
    pub fn current(self) -> u32
        ensures { result ≡ current_rx self }
    {
        self.new | self.previous
    }

    fn rolled(self) -> Rx
        ensures { result ≡ rolled_rx self }
    {
        let previous = self.new;
        Rx { new: 0, previous }
    }

    // Those of the frame's flags that are in neither NewRx nor PreviousRx, asked before they are added.
    fn really_new(self, frame: Frame) -> u32
        ensures { result ≡ really_new self frame }
    {
        frame.current & !self.current()
    }

    fn heard(self, frame: Frame) -> Rx
        ensures { result ≡ heard_rx self frame }
    {
        let gone = frame.taken_away();
        Rx {
            new: (self.new | frame.current) & !gone,
            previous: self.previous & !gone,
        }
    }
}

impl Frame {
    // The flags that its sender no longer uses, and that leave the receiver's sets.
    #[tactic(auto, unfolding(crate::specs::Events::taken_away))]
    fn taken_away(self) -> u32
        ensures { result ≡ taken_away self }
    {
        self.oldest & !self.current
    }
}

impl Station {
    pub const ACCEPTED: u8 = 0;

    // An opcode above 1.
    pub const REFUSED: u8 = 30;

    pub fn fresh(default: u32) -> Station
        ensures { result ≡ fresh default }
    {
        let tx = Tx {
            new: default,
            previous: 0,
            oldest: 0,
        };
        let rx = Rx {
            new: 0,
            previous: 0,
        };
        Station { default, tx, rx }
    }

    // The sets that a frame sent now carries; what the host sends when the retransmit timer runs out (001, 6.5.5.4).
    pub fn frame(self) -> Frame
        ensures { result ≡ carried self }
    {
        Frame {
            oldest: self.tx.oldest,
            current: self.tx.current(),
            heard: self.rx.current(),
        }
    }

    // The station uses these flags (001, 6.5.5.1).
    pub fn use_flags(mut self, flags: u32) -> Answer
        ensures { outcome_of result ≡ used self flags }
    {
        let announced = self.tx.unannounced(flags) != 0;
        self.tx = self.tx.added(flags);
        self.answer(announced, 0, Timer::start_if(announced))
    }

    // The host's period timer runs out (001, 6.5.5.3).
    pub fn end_period(mut self) -> Answer
        ensures { outcome_of result ≡ ended self }
    {
        self.tx = self.tx.rolled(self.default);
        self.rx = self.rx.rolled();
        let differs = self.tx.current() != self.tx.oldest;
        let timer = Timer::cancel_then_start_if(differs);
        self.answer(true, 0, timer)
    }

    // A capability frame comes in (001, 6.5.5.2). A refusal leaves the station, which is the caller's, as it is.
    pub fn receive(mut self, opcode: u8, frame: Frame) -> Result<Answer, Refused>
        ensures { outcome_or self result ≡ received self opcode frame }
    {
        let opcode = Opcode::try_from(opcode)?;
        let new = self.rx.really_new(frame);
        self.rx = self.rx.heard(frame);
        let timer = Timer::start_if(opcode == Opcode::Request);
        Ok(self.answer(false, new, timer))
    }

    // What a host is told of the result at this station: ACCEPTED and the answer, or the refusal's number, and this station with nothing to do.
    pub fn told(self, answered: Result<Answer, Refused>) -> (u8, Answer)
        ensures { outcome_as result.0 result.1 ≡ outcome_or self answered }
    {
        match answered {
            Ok(answer) => (Station::ACCEPTED, answer),
            Err(refused) => (refused.into(), self.answer(false, 0, Timer::Kept)),
        }
    }

    fn answer(self, sends: bool, reported: u32, timer: Timer) -> Answer
        ensures { outcome_of result ≡ accepted self sends reported (order_of timer) }
    {
        let frame = self.frame();
        Answer {
            station: self,
            sends,
            frame,
            reported,
            timer,
        }
    }
}
