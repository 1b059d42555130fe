// The layout of an entry: a length of two octets, and a body of that many. A body's first octet is its kind.
ghost use Rattle.std.specs.Prelude.{◌≡◌, ◌≤◌, length};
ghost use Rattle.session.specs.Numbers.{number_at};
ghost use Rattle.session.specs.Layout.{form_at, rest_at, OwnRest};
ghost use Rattle.session.specs.Kinds.{form_named};
ghost use Rattle.session.specs.Bodies.{Reads, key_at, request_at};

use crate::kind::Kind;
use crate::numbers::number_at;
use crate::{Body, Key, Request};
use wire::octet;

// How many octets the body has behind the two that spell its length.
pub fn length(entry: &[u8]) -> u16
    ensures { result ≡ number_at entry.now 0 2 }
{
    number_at::<2>(entry, 0) as u16
}

#[tactic(auto, unfolding(crate::specs::Layout::form_of, crate::specs::Layout::said), using(crate::proofs::Spelling::number_one))]
pub fn read(body: &[u8]) -> Option<Body>
    ensures { Reads body.now result }
{
    let kind = readable(body)?;
    // The key, the time and the number stand at the same places in each kind that has them.
    let key = key(body);
    let time = number_at::<8>(body, 14);
    let number = number_at::<2>(body, 22) as u16;
    Some(match kind {
        Kind::Data => Body::Data {
            key,
            time,
            number,
            handle: number_at::<4>(body, 24) as u32,
        },
        Kind::Reminder => Body::Reminder { key, time, number },
        Kind::Tick => Body::Tick { key, time },
        Kind::Close => Body::Close { key, time },
        Kind::Look => Body::Look { key },
        Kind::Fresh => Body::Fresh {
            default: number_at::<4>(body, 1) as u32,
        },
        Kind::Use => Body::Use {
            flags: number_at::<4>(body, 1) as u32,
        },
        Kind::Period => Body::Period,
        Kind::Received => Body::Received {
            opcode: octet(body, 1),
            oldest: number_at::<4>(body, 2) as u32,
            current: number_at::<4>(body, 6) as u32,
            heard: number_at::<4>(body, 10) as u32,
        },
        Kind::Read => Body::Read,
        Kind::Write => Body::Write {
            request: request(body),
            room: number_at::<2>(body, 19) as u16,
        },
    })
}

// The octets behind the fields, which are the caller's own: the frame of `Read`, the addresses of `Write`, and none of any other body.
pub fn rest(body: &[u8]) -> &[u8]
    ensures { OwnRest body.entry result }
{
    &body[rest_at(body)..]
}

// Where the octets behind the fields start: at the end, where the body is unreadable.
#[tactic(auto, using(crate::proofs::Reading::rest_within, crate::proofs::Reading::named_end))]
fn rest_at(body: &[u8]) -> usize
    ensures start { result ≡ rest_at body.now }
    ensures within { result ≤ length body.now }
{
    match readable(body) {
        Some(kind) => kind.fields_end(),
        None => body.len(),
    }
}

// The kind of a readable body: its first octet tells one, and the length is one that the kind may have.
fn readable(body: &[u8]) -> Option<Kind>
    ensures { form_named result ≡ form_at body.now }
{
    let kind = Kind::of(octet(body, 0))?;
    kind.may_have(body.len()).then_some(kind)
}

#[tactic(auto, using(crate::proofs::Spelling::number_one))]
fn key(body: &[u8]) -> Key
    ensures { result ≡ key_at body.now }
{
    Key {
        destination: number_at::<6>(body, 1),
        source: number_at::<6>(body, 7),
        priority: octet(body, 13),
    }
}

#[tactic(auto, using(crate::proofs::Spelling::number_one))]
fn request(body: &[u8]) -> Request
    ensures { result ≡ request_at body.now }
{
    Request {
        destination: number_at::<6>(body, 1),
        source: number_at::<6>(body, 7),
        opcode: octet(body, 13),
        bands: octet(body, 14),
        pe1: octet(body, 15),
        rank1: octet(body, 16),
        pe2: octet(body, 17),
        rank2: octet(body, 18),
    }
}
