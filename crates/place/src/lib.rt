#![tactic(auto)]
// A call on one open place: what it answers, and what it promises (specs/Call.antt). The laws that a frame and the events that bring none share
// stand here too.
ghost use Rattle.std.specs.Prelude.{◌≡◌};
ghost use Rattle.place.specs.Call.{Begins, told, told_as};
ghost use Rattle.place.specs.Steps.{answer_of};

use larq::Refused;
use record::Record;
use ring::Seq;
use stepping::Counts;

// What an accepted call answers: how many entries of each buffer it wrote, and how many numbers it gave up.
#[derive(Clone, Copy)]
pub struct Answer {
    pub up: usize,
    pub returned: usize,
    pub nack: usize,
    pub lost: usize,
}

impl Answer {
    // Nothing is written and nothing given up. A constant, where a derived `default` would be one more call.
    pub const NONE: Answer = Answer {
        up: 0,
        returned: 0,
        nack: 0,
        lost: 0,
    };
}

// The answer that counts make, of a call that gives nothing back.
impl From<Counts> for Answer {
    ghost from_gives = { λ counts answer. answer ≡ answer_of counts };

    fn from(counts: Counts) -> Answer {
        Answer {
            up: counts.up,
            nack: counts.nack,
            lost: counts.lost,
            ..Answer::NONE
        }
    }
}

// What a host is told of a call's result: 0 and the answer, or the refusal's number and zeros.
pub fn told(answered: Result<Answer, Refused>) -> (u8, Answer)
    ensures { told_as result.0 result.1 ≡ told answered }
{
    match answered {
        Ok(answer) => (0, answer),
        Err(refused) => (refused.into(), Answer::NONE),
    }
}

// A channel begins with s, or begins anew: nothing is missing, and s goes up.
pub fn begun(words: &mut [u64], up: &mut [u32], s: Seq, handle: u32, time: u64) -> Answer
    ensures { Begins s.0 handle time words.old up.old words.new up.new result }
{
    Record::opened(s, time).stored(words);
    // By its index and not by `first_mut`: its wrong box writes one entry later, and is refused by what `up` then holds.
    if 0 < up.len() {
        up[0] = handle;
    }
    Answer {
        up: 1,
        ..Answer::NONE
    }
}
