#![tactic(auto)]
// The round trip of a rate request through the functions themselves, both ways (document 01, 'The rate request on the wire').
ghost use Rattle.roundtrip.specs.Trip.{ReadBack, WrittenAgain, trip};

use rate::{Refused, Request};
use rate_reader::Reading;

// What the writer and the reader answered.
#[derive(Clone, Copy, Debug, PartialEq, Eq)]
pub struct Trip {
    pub written: Result<usize, Refused>,
    pub reading: Result<Reading, Refused>,
}

// Writes a request and reads what was written: no octets, where it is refused.
pub fn read_back(out: &mut [u8], request: Request, addresses: &[u8]) -> Trip
    ensures { ReadBack request addresses.now out.old out.new (trip result) }
{
    let written = rate::write(out, request, addresses);
    let count = written.unwrap_or(0);
    let reading = rate_reader::read(&out[..count]);
    Trip { written, reading }
}

// Reads a frame and writes the request that was read: zeros, where it is refused.
pub fn write_again(out: &mut [u8], frame: &[u8]) -> Trip
    ensures { WrittenAgain frame.now out.old out.new (trip result) }
{
    let reading = rate_reader::read(frame);
    let read = reading.unwrap_or_default();
    let addresses = wire::part(frame, read.start, read.extent);
    let written = rate::write(out, read.request, addresses);
    Trip { written, reading }
}
