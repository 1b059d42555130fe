// What refuses a received frame (document 01, 'Numbers the box may answer with').
ghost use Rattle.std.specs.Prelude.{◌≡◌, Some};
ghost use Rattle.capability.specs.Refused.{number_of, words_of};

use crate::Station;
use std::error::Error;
use std::fmt;

#[derive(Clone, Copy, Debug, PartialEq, Eq)]
pub enum Refused {
    // An opcode above 1.
    Opcode,
}

impl From<Refused> for u8 {
    ghost from_gives = { λ refused number. number ≡ number_of refused };

    fn from(refused: Refused) -> u8 {
        match refused {
            Refused::Opcode => Station::REFUSED,
        }
    }
}

// The words of the Rust binding, by which a help desk knows it.
impl fmt::Display for Refused {
    ghost output = { λ refused. Some (words_of refused) };

    fn fmt<W: fmt::Write>(&self, f: &mut fmt::Formatter<W>) -> fmt::Result {
        f.write_str(match self {
            Refused::Opcode => "the opcode of the capability frame is above 1",
        })
    }
}

impl Error for Refused {}
