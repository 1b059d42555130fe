#![tactic(auto)]
// The words of every frame format: octets, refusals in their order, the short format, and laying octets into a slice.
// Every function takes any input: past the end an octet is 0, a part that does not lie within is empty, and what does not fit is not written.
mod laying;
mod short;

ghost use Rattle.std.specs.Prelude.{◌≡◌, ◌&&◌, ◌+◌, leb};
ghost use Rattle.wire.specs.Octets.{octet_at, six_at, OwnPartOrNone};

pub use laying::{clear, lay};
pub use short::{ethertype_right, next_ethertype_zero};

// The octet at a place, or 0 past the end.
pub fn octet(s: &[u8], at: usize) -> u8
    ensures { result ≡ octet_at s.now at }
{
    s.get(at).copied().unwrap_or(0)
}

// Whether a number lies between two others, both of them included.
pub fn between(n: usize, least: usize, most: usize) -> bool
    ensures { result ≡ (leb least n && leb n most) }
{
    least <= n && n <= most
}

// Whether so many octets from a place on lie within a length. The sum could pass the largest number, the difference cannot.
pub fn lies_within(length: usize, start: usize, count: usize) -> bool
    ensures { result ≡ leb (start + count) length }
{
    start <= length && count <= length - start
}

// The six octets from a place on: an address. Where they do not all lie within the slice, zeros.
pub fn six(s: &[u8], at: usize) -> [u8; 6]
    ensures { result ≡ six_at s.now at }
{
    match part(s, at, 6) {
        [first, second, third, fourth, fifth, sixth] => {
            [*first, *second, *third, *fourth, *fifth, *sixth]
        }
        _ => [0; 6],
    }
}

// The caller's own octets from a place on, or none of them where they do not lie within the slice.
pub fn part(s: &[u8], start: usize, count: usize) -> &[u8]
    ensures { OwnPartOrNone s.entry start count result }
{
    if lies_within(s.len(), start, count) {
        let end = start + count;
        return &s[start..end];
    }
    &s[0..0]
}
