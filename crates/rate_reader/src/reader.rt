// The reader: the refusals 10 to 22 in their order, then the request and the octets that hold its addresses.
ghost use Rattle.std.specs.Prelude.{◌≡◌, take, drop, Ok};
ghost use Rattle.wire.specs.Refusals.{first, answered};
ghost use Rattle.wire.specs.Answers.{number_in};
ghost use Rattle.rate.specs.Refused.{number_of};
ghost use Rattle.rate_reader.specs.Reading.{refusals, refused_by, given_of, accepted, read, read_as, read_of};
ghost use Rattle.rate_reader.specs.Receiving.{Receives};

use crate::{Reading, fields};
use rate::{Refused, Request};

#[tactic(auto, unfolding(crate::specs::Reading::refusals, crate::specs::Reading::read_of))]
pub fn read(frame: &[u8]) -> Result<Reading, Refused>
    ensures { read result ≡ read_of frame.now }
{
    departs(frame)?;
    request(frame)
}

// What a host is told of the result: 0 and what was read, or the refusal's number and zeros.
pub fn told(answered: Result<Reading, Refused>) -> (u8, Reading)
    ensures { read_as result.0 result.1 ≡ read answered }
{
    match answered {
        Ok(reading) => (0, reading),
        Err(refused) => (refused.into(), Reading::default()),
    }
}

// What is received: the reading, and of the caller's frame the octets where the addresses stand.
#[derive(Clone, Copy)]
pub struct Received<'a> {
    pub reading: Reading,
    pub addresses: &'a [u8],
}

pub fn receive<'a>(frame: &'a [u8]) -> Result<Received<'a>, Refused>
    ensures { Receives frame.entry result }
{
    let reading = read(frame)?;
    let addresses = wire::part(frame, reading.start, reading.extent);
    Ok(Received { reading, addresses })
}

// Each field's answer is taken apart by `let .. else` (document 01, 'Where to use each form').

// The first refusal among 10 to 14: whether the frame is a rate request of version 0 at all.
#[tactic(auto, unfolding(crate::specs::Reading::refusals))]
fn departs(frame: &[u8]) -> Result<(), Refused>
    ensures { number_in number_of result ≡ first (take 5 (refusals frame.now)) }
{
    let true = fields::length(frame) else {
        return Err(Refused::Length);
    };
    let true = fields::ethertype(frame) else {
        return Err(Refused::Ethertype);
    };
    let true = fields::ss_type(frame) else {
        return Err(Refused::SsType);
    };
    let true = fields::ss_length(frame) else {
        return Err(Refused::SsLength);
    };
    let true = fields::ss_version(frame) else {
        return Err(Refused::SsVersion);
    };
    Ok(())
}

// The request of such a frame, or the first refusal among 15 to 22.
#[tactic(auto, using(wire::proofs::Ruled::said_passes, wire::proofs::Ruled::said_fails), unfolding(crate::specs::Reading::refusals))]
fn request(frame: &[u8]) -> Result<Reading, Refused>
    ensures { read result ≡ answered refused_by (drop 5 (refusals frame.now)) (accepted frame.now) }
{
    let Some(opcode) = fields::opcode(frame) else {
        return Err(Refused::Opcode);
    };
    let Some(bands) = fields::bands(frame) else {
        return Err(Refused::Bands);
    };
    let Some(addresses) = fields::addresses(frame) else {
        return Err(Refused::Lengths);
    };
    let Some(pe1) = fields::band_one(frame) else {
        return Err(Refused::BandOne);
    };
    let Some(pe2) = fields::band_two(frame) else {
        return Err(Refused::BandTwo);
    };
    let Some((rank1, rank2)) = fields::ranks(frame) else {
        return Err(Refused::Ranks);
    };
    let true = fields::groups(frame, fields::start(bands), fields::extent(addresses)) else {
        return Err(Refused::Group);
    };
    let true = fields::next_ethertype(frame) else {
        return Err(Refused::NextEthertype);
    };
    let request = Request {
        destination: wire::six(frame, 0),
        source: wire::six(frame, 6),
        opcode,
        bands,
        pe1,
        rank1,
        pe2,
        rank2,
    };
    Ok(given(request, addresses))
}

// What is accepted: the request, and where the frame holds its addresses.
fn given(request: Request, addresses: u8) -> Reading
    ensures { read (Ok result) ≡ given_of request addresses }
{
    Reading {
        request,
        addresses,
        start: fields::start(request.bands),
        extent: fields::extent(addresses),
    }
}
