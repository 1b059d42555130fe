// The fields that every frame of the short format has (001, clause 6.2.1).
ghost use Rattle.std.specs.Prelude.{◌≡◌};
ghost use Rattle.wire.specs.ShortFormat.{ethertype_right, next_ethertype_zero};

use crate::octet;

#[tactic(auto, unfolding(crate::specs::ShortFormat::ethertype_right))]
pub fn ethertype_right(frame: &[u8]) -> bool
    ensures { result ≡ ethertype_right frame.now }
{
    octet(frame, 12) == 0x88 && octet(frame, 13) == 0x6c
}

// Next Ethertype is the header's last two octets, and SSLength says where the header ends.
#[tactic(auto, unfolding(crate::specs::ShortFormat::next_ethertype_zero))]
pub fn next_ethertype_zero(frame: &[u8]) -> bool
    ensures { result ≡ next_ethertype_zero frame.now }
{
    let length = octet(frame, 15) as usize;
    octet(frame, 14 + length) == 0 && octet(frame, 15 + length) == 0
}
