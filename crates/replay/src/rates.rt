// Rate requests: a frame that is read, and a request that is written into an output of the room that the body names.
use crate::text::{Line, Octets};
use rate::Request;
use rate_reader::Reading;
use session::Body;
use std::fmt;
use std::fmt::Write;

// The longest output that a request is written into; the longest frame has 270 octets.
const LONGEST: usize = 1600;

// `rest` are the octets behind the fields of the event's body.
pub(crate) fn answer(line: &mut Line, event: Body, rest: &[u8]) -> fmt::Result {
    match event {
        Body::Read => read(line, rest),
        Body::Write { request, room } => write(line, request, room, rest),
        _ => Ok(()),
    }
}

// Reads a frame; of one that is refused the line tells zeros. The addresses are the frame's own octets.
fn read(line: &mut Line, frame: &[u8]) -> fmt::Result {
    let (number, reading) = rate_reader::told(rate_reader::read(frame));
    let start = reading.start;
    let extent = reading.extent;
    tell(line, number, reading)?;
    write!(line, " octets={}", Octets(wire::part(frame, start, extent)))
}

// The chosen band and its rate are 0 where a refused frame has none.
fn tell(line: &mut Line, number: u8, reading: Reading) -> fmt::Result {
    let request = reading.request;
    write!(
        line,
        " read {number} destination={} source={} opcode={} bands={} addresses={}",
        Octets(&request.destination),
        Octets(&request.source),
        request.opcode,
        request.bands,
        reading.addresses
    )?;
    write!(
        line,
        " pe1={} rank1={} pe2={} rank2={} chosen={} rate={}",
        request.pe1,
        request.rank1,
        request.pe2,
        request.rank2,
        rate::chosen_band(request).map_or(0, u8::from),
        rate::chosen_rate(request).unwrap_or(0)
    )
}

// Writes a request into an output of this room whose octets are all 0xff before, and tells the whole output.
fn write(line: &mut Line, request: session::Request, room: u16, addresses: &[u8]) -> fmt::Result {
    let mut octets = [0xffu8; LONGEST];
    let output = &mut octets[..(room as usize).min(LONGEST)];
    let (number, count) = rate::told(rate::write(output, wanted(request), addresses));
    write!(
        line,
        " write {number} count={count} output={}",
        Octets(output)
    )
}

// The request with its addresses in octets. Both types are other crates', so it is no `From`.
fn wanted(request: session::Request) -> Request {
    Request {
        destination: session::octets(request.destination),
        source: session::octets(request.source),
        opcode: request.opcode,
        bands: request.bands,
        pe1: request.pe1,
        rank1: request.rank1,
        pe2: request.pe2,
        rank2: request.rank2,
    }
}
