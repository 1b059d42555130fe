// Laying octets over a slice, one run after the other: what a header is written with.
ghost use Rattle.std.specs.Prelude.{◌≡◌, ◌+◌, ◌≤◌, length, replicate};
ghost use Rattle.wire.specs.Laying.{Lays, over};

use crate::lies_within;

// Lays octets over a slice from a place on, and gives the place after them. Where they do not fit, nothing is written.
pub fn lay(out: &mut [u8], at: usize, octets: &[u8]) -> usize
    ensures { Lays at octets.now out.old out.new result }
{
    if !lies_within(out.len(), at, octets.len()) {
        return at;
    }
    copy(out, at, octets);
    at + octets.len()
}

// Lays so many zeros over a slice from a place on, as `lay` does octets. Two functions: one for both would take a closure that writes, and be no plainer.
pub fn clear(out: &mut [u8], at: usize, count: usize) -> usize
    ensures { Lays at (replicate count 0) out.old out.new result }
{
    if !lies_within(out.len(), at, count) {
        return at;
    }
    zero(out, at, count);
    at + count
}

// Octet by octet: with a header's short runs std's `copy_from_slice` and `fill` make a write of no address take 212 instructions in place of 151, which is
// past the target of 1.3 times the cheapest peer (docs/BENCHMARKS.md).
fn copy(out: &mut [u8], at: usize, octets: &[u8])
    requires { at + length octets.now ≤ length out.old }
    ensures { out.new ≡ over out.old at octets.now }
{
    for done in 0..octets.len() {
        out[at + done] = octets[done];
    }
}

fn zero(out: &mut [u8], at: usize, count: usize)
    requires { at + count ≤ length out.old }
    ensures { out.new ≡ over out.old at (replicate count 0) }
{
    for done in 0..count {
        out[at + done] = 0;
    }
}
