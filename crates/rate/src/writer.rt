// The writer: the refusals in their order, then the frame from the start of the output on.
ghost use Rattle.std.specs.Prelude.{◌≡◌, ◌≤◌, length};
ghost use Rattle.wire.specs.Laying.{Lays};
ghost use Rattle.wire.specs.Refusals.{first};
ghost use Rattle.wire.specs.Answers.{number_in};
ghost use Rattle.rate.specs.Refused.{number_of};
ghost use Rattle.rate.specs.Writing.{layout_holds, absent_band_empty, band_part, frame_for, writer_refusals, Layable, Frames, written, written_as, Wrote};

use crate::rules::{
    band_one_right, band_two_right, group_addresses, opcode_right, ranks_right, some_band,
};
use crate::{Refused, Request};

// A request and its addresses stay two parameters: they come as two by the C interface, and each definition takes two.

// Writes the request's frame, and gives how many octets it has: the header, with zeros up to 60 octets where it is shorter. Refused, nothing is written.
pub fn write(out: &mut [u8], request: Request, addresses: &[u8]) -> Result<usize, Refused>
    ensures { Wrote request addresses.now out.old out.new (written result) }
{
    test(request, addresses, out.len())?;
    Ok(put(out, request, addresses))
}

// What a host is told of the result: 0 and how many octets the frame has, or the refusal's number and 0.
pub fn told(answered: Result<usize, Refused>) -> (u8, usize)
    ensures { written_as result.0 result.1 ≡ written answered }
{
    match answered {
        Ok(count) => (0, count),
        Err(refused) => (refused.into(), 0),
    }
}

// The first refusal, if there is one.
#[tactic(auto, unfolding(crate::specs::Writing::writer_refusals, crate::specs::Writing::output_holds))]
fn test(request: Request, addresses: &[u8], room: usize) -> Result<(), Refused>
    ensures { number_in number_of result ≡ first (writer_refusals request addresses.now room) }
{
    if !opcode_right(request.opcode) {
        return Err(Refused::Opcode);
    }
    if !some_band(request.bands) {
        return Err(Refused::Bands);
    }
    if !layout_holds(request, addresses) {
        return Err(Refused::Layout);
    }
    if !band_one_right(request.pe1) {
        return Err(Refused::BandOne);
    }
    if !band_two_right(request.bands, request.pe2) {
        return Err(Refused::BandTwo);
    }
    if !ranks_right(request.bands, request.rank1, request.rank2) {
        return Err(Refused::Ranks);
    }
    if !group_addresses(addresses) {
        return Err(Refused::Group);
    }
    if room < frame_length(request, addresses) {
        return Err(Refused::Room);
    }
    Ok(())
}

// Whether the frame's layout can hold the request: number 23.
#[tactic(auto, unfolding(crate::specs::Writing::layout_holds, crate::specs::Writing::ss_length_for))]
fn layout_holds(request: Request, addresses: &[u8]) -> bool
    ensures { result ≡ layout_holds request addresses.now }
{
    let octets = addresses.len();
    octets % 6 == 0
        && request.bands <= 2
        && absent_band_empty(request)
        && 6 + 2 * request.bands as usize + octets <= 255
}

#[tactic(auto, unfolding(crate::specs::Writing::absent_band_empty))]
fn absent_band_empty(request: Request) -> bool
    ensures { result ≡ absent_band_empty request }
{
    2 <= request.bands || (request.pe2 == 0 && request.rank2 == 0)
}

// How many octets the frame has.
fn frame_length(request: Request, addresses: &[u8]) -> usize
    requires { request.bands ≤ 2 }
    ensures { result ≡ length (frame_for request addresses.now) }
{
    let header = 22 + 2 * request.bands as usize + addresses.len();
    header.max(60)
}

// Lays the frame over the start of the output.
fn put(out: &mut [u8], request: Request, addresses: &[u8]) -> usize
    requires { Layable request addresses.now out.old }
    ensures { Frames request addresses.now out.old out.new result }
{
    let destination = request.destination;
    let source = request.source;
    let octets = addresses.len();
    let pairs = 2 * request.bands as usize;
    let fixed = [
        0x88u8,
        0x6c,
        1,
        (6 + pairs + octets) as u8,
        0,
        request.opcode,
        request.bands,
        (octets / 6) as u8,
    ];
    let mut at = wire::lay(out, 0, &destination);
    at = wire::lay(out, at, &source);
    at = wire::lay(out, at, &fixed);
    at = lay_bands(out, at, request);
    at = wire::lay(out, at, addresses);
    wire::clear(out, at, frame_length(request, addresses) - at)
}

// PE and rank for each band. Two arrays and not a part of one: with that a write of no address costs 1.52 times the cheapest peer, with these 1.24.
#[tactic(auto, unfolding(crate::specs::Writing::band_part))]
fn lay_bands(out: &mut [u8], at: usize, request: Request) -> usize
    requires { (1 ≤ request.bands) × (request.bands ≤ 2) }
    ensures { Lays at (band_part request) out.old out.new result }
{
    if request.bands == 2 {
        let both = [request.pe1, request.rank1, request.pe2, request.rank2];
        return wire::lay(out, at, &both);
    }
    let one = [request.pe1, request.rank1];
    wire::lay(out, at, &one)
}
