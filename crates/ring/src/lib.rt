#![tactic(auto)]
// A place in the ring of 4,096 numbers and a signed step along it, never mixed (document 01, 'Numbers in a ring of 4,096').
ghost use Rattle.std.specs.Prelude.{◌≡◌};
ghost use Rattle.ring.specs.Ring.{forward, steps, distance, side, is_far, is_ahead};

// A place in the ring. Every u16 is one: a value above 4,095 counts modulo 4,096, since going on past the last number comes round to the
// first. So no call below asks anything of its caller. Whether such a value is accepted at all is settled where it comes in (numbers 2 and 6).
// It derives no `==`: two values may be one place.
#[derive(Clone, Copy)]
pub struct Seq(pub u16);

// A step along the ring: above 0 is ahead (new), 0 or below is behind (old; 001, clause 6.6.2).
#[derive(Clone, Copy)]
pub struct Distance(pub i32);

impl Seq {
    // How many numbers the ring has.
    pub const SIZE: u16 = 4096;

    // How far from the current number another may lie: twice the waiting window.
    pub const REACH: i32 = 64;

    // The last number. All its bits are set, so that `& Seq::LAST` takes any value modulo the ring's size, and no function here divides (request 2026-04).
    const LAST: u16 = Seq::SIZE - 1;

    // As many steps forward as this or more count as steps back.
    const HALF: i32 = 2048;

    // The place so many steps on.
    pub fn forward(self, by: u16) -> Seq
        ensures { result.0 ≡ forward self.0 by }
    {
        Seq(((self.0 & Seq::LAST) + (by & Seq::LAST)) & Seq::LAST)
    }

    // How many steps on `to` is, always going forward: 0 to 4,095. The subtraction wraps round the ring: with a round added it does not go below 0, and
    // the mask takes the round off again.
    pub fn steps(self, to: Seq) -> u16
        ensures { result ≡ steps self.0 to.0 }
    {
        ((to.0 & Seq::LAST) + Seq::SIZE - (self.0 & Seq::LAST)) & Seq::LAST
    }

    // The distance from here to `to`: -2,048 to 2,047. From half a round on, a round is taken off.
    #[tactic(auto, using(crate::proofs::Signed::lower_read, crate::proofs::Signed::upper_read))]
    pub fn distance(self, to: Seq) -> Distance
        ensures { result.0 ≡ distance self.0 to.0 }
    {
        let n = i32::from(self.steps(to));
        if n < Seq::HALF {
            Distance(n)
        } else {
            Distance(n - i32::from(Seq::SIZE))
        }
    }
}

impl Distance {
    // Whether this step leads farther than the reach, either way.
    #[tactic(auto, using(crate::proofs::Signed::far_test))]
    pub fn is_far(self) -> bool
        ensures { result ≡ is_far (side 64 self.0) }
    {
        !(-Seq::REACH..=Seq::REACH).contains(&self.0)
    }

    // Whether this step leads ahead, by 1 to the reach.
    #[tactic(auto, using(crate::proofs::Signed::ahead_test))]
    pub fn is_ahead(self) -> bool
        ensures { result ≡ is_ahead (side 64 self.0) }
    {
        (1..=Seq::REACH).contains(&self.0)
    }
}
