// What refuses a rate request that is read or written (document 01, 'Numbers the box may answer with'): the numbers 10 to 24, by name.
ghost use Rattle.std.specs.Prelude.{◌≡◌, Some};
ghost use Rattle.rate.specs.Refused.{number_of, words_of};

use std::error::Error;
use std::fmt;

#[derive(Clone, Copy, Debug, PartialEq, Eq)]
pub enum Refused {
    Length,
    Ethertype,
    SsType,
    SsLength,
    SsVersion,
    Opcode,
    // NumBands.
    Bands,
    // SSLength beside NumBands and NumAddr.
    Lengths,
    BandOne,
    BandTwo,
    Ranks,
    // An extra address that is no group address.
    Group,
    NextEthertype,
    Layout,
    // Too short an output.
    Room,
}

impl From<Refused> for u8 {
    ghost from_gives = { λ refused number. number ≡ number_of refused };

    fn from(refused: Refused) -> u8 {
        match refused {
            Refused::Length => 10,
            Refused::Ethertype => 11,
            Refused::SsType => 12,
            Refused::SsLength => 13,
            Refused::SsVersion => 14,
            Refused::Opcode => 15,
            Refused::Bands => 16,
            Refused::Lengths => 17,
            Refused::BandOne => 18,
            Refused::BandTwo => 19,
            Refused::Ranks => 20,
            Refused::Group => 21,
            Refused::NextEthertype => 22,
            Refused::Layout => 23,
            Refused::Room => 24,
        }
    }
}

// The words of the Rust binding, by which a help desk knows them.
impl fmt::Display for Refused {
    ghost output = { λ refused. Some (words_of refused) };

    fn fmt<W: fmt::Write>(&self, f: &mut fmt::Formatter<W>) -> fmt::Result {
        f.write_str(match self {
            Refused::Length => "the frame has fewer than 60 or more than 1,514 octets",
            Refused::Ethertype => "the Ethertype is not 0x886c",
            Refused::SsType => "SSType is not 1",
            Refused::SsLength => "SSLength is below 8 or reaches past the frame's end",
            Refused::SsVersion => "SSVersion is not 0",
            Refused::Opcode => "OpCode is above 2",
            Refused::Bands => "NumBands is 0",
            Refused::Lengths => "SSLength does not agree with NumBands and NumAddr",
            Refused::BandOne => "the PE of band 1 is not 1 to 7",
            Refused::BandTwo => "the PE of band 2 is neither 0 nor 9 to 15",
            Refused::Ranks => "a rank is 0, or two ranks are equal",
            Refused::Group => "an extra address is no group address",
            Refused::NextEthertype => "Next Ethertype is not 0",
            Refused::Layout => "a frame cannot hold the request",
            Refused::Room => "the output is too short",
        })
    }
}

impl Error for Refused {}
