// Big-endian numbers in octets, at any place of a slice: read, and for an address written again. Past the end every octet counts as 0.
ghost use Rattle.std.specs.Prelude.{◌≡◌, ◌^◌, ◌<◌, ◌≤◌};
ghost use Rattle.session.specs.Numbers.{number_at, spelled};

use wire::octet;

// The number of N octets from a place on.
#[tactic(auto, using(crate::proofs::Spelling::number_more, crate::proofs::Spelling::seven_most), unfolding(crate::specs::Numbers::number_at))]
pub(crate) fn number_at<const N: usize>(s: &[u8], at: usize) -> u64
    requires width { N ≤ 8 }
    requires place { at < 2 ^ 16 }
    ensures value { result ≡ number_at s.now at N }
    ensures fits { result < 256 ^ N }
{
    let mut number = 0;
    for i in 0..N {
        number = number * 0x100 + u64::from(octet(s, at + i));
    }
    number
}

// The six octets of an address; what a number has above 48 bits is left out.
#[tactic(auto, unfolding(crate::specs::Numbers::spelled))]
pub fn octets(address: u64) -> [u8; 6]
    ensures { result ≡ spelled 6 address }
{
    let [_, _, first, second, third, fourth, fifth, sixth] = address.to_be_bytes();
    [first, second, third, fourth, fifth, sixth]
}
