// What refuses a call of the receiver (document 01, 'Numbers the box may answer with'): the numbers 1 to 8, by name.
ghost use Rattle.std.specs.Prelude.{◌≡◌, Some};
ghost use Rattle.larq.specs.Refused.{number_of, words_of};

use std::error::Error;
use std::fmt;

#[derive(Clone, Copy, Debug, PartialEq, Eq)]
pub enum Refused {
    // Slices or buffers of other lengths than they should have.
    Lent,
    // A sequence number that is not in the ring.
    Number,
    // A priority above 7.
    Priority,
    // No channel of this key is open.
    Unknown,
    // All places are taken.
    Full,
    // The record is broken.
    Broken,
    // A time before the channel's latest.
    Earlier,
    // A reminder from far.
    Far,
}

impl From<Refused> for u8 {
    ghost from_gives = { λ refused number. number ≡ number_of refused };

    fn from(refused: Refused) -> u8 {
        match refused {
            Refused::Lent => 1,
            Refused::Number => 2,
            Refused::Priority => 3,
            Refused::Unknown => 4,
            Refused::Full => 5,
            Refused::Broken => 6,
            Refused::Earlier => 7,
            Refused::Far => 8,
        }
    }
}

// The words of the Rust binding, by which a help desk knows them.
impl fmt::Display for Refused {
    ghost output = { λ refused. Some (words_of refused) };

    fn fmt<W: fmt::Write>(&self, f: &mut fmt::Formatter<W>) -> fmt::Result {
        f.write_str(match self {
            Refused::Lent => "a buffer or a slice of the table has the wrong length",
            Refused::Number => "the sequence number is above 4,095",
            Refused::Priority => "the priority is above 7",
            Refused::Unknown => "no such channel is open",
            Refused::Full => "no place is free for a new channel",
            Refused::Broken => "the channel's record is broken",
            Refused::Earlier => "the time is earlier than the channel's latest",
            Refused::Far => "the reminder's number is more than 64 from the current one",
        })
    }
}

impl Error for Refused {}
