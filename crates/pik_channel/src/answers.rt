// What a channel event answers a host: a struct of plain words, with the number of a refusal in it.
ghost use Rattle.std.specs.Prelude.{◌≡◌};
ghost use Rattle.place.specs.Call.{told};
ghost use Rattle.pik_channel.specs.Answers.{told_of};

use larq::Refused;

// The number, how many entries of each buffer were written, and how many numbers were given up.
#[repr(C)]
#[derive(Clone, Copy, Default)]
pub struct Answer {
    pub number: u8,
    pub up: usize,
    pub returned: usize,
    pub nack: usize,
    pub lost: usize,
}

impl From<Result<place::Answer, Refused>> for Answer {
    ghost from_gives = { λ answered answer. told_of answer ≡ told answered };

    fn from(answered: Result<place::Answer, Refused>) -> Answer {
        match answered {
            Ok(answer) => Answer {
                number: 0,
                up: answer.up,
                returned: answer.returned,
                nack: answer.nack,
                lost: answer.lost,
            },
            Err(refused) => Answer {
                number: refused.into(),
                ..Answer::default()
            },
        }
    }
}
