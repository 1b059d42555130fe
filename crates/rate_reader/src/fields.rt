// The fields of a frame: whether each is right, or its value where it is, as its row of refusals says. Each row has a function of its own, however
// short and like another it is: the reader's steps are the rows of the paper.
ghost use Rattle.std.specs.Prelude.{◌≡◌, [], ◌∷◌};
ghost use Rattle.wire.specs.Octets.{part_at};
ghost use Rattle.wire.specs.Refusals.{◌else◌};
ghost use Rattle.wire.specs.Answers.{ruled, option_says};
ghost use Rattle.wire.specs.ShortFormat.{ethertype_right, next_ethertype_zero};
ghost use Rattle.rate.specs.Request.{opcode_right, some_band, band_one_right, band_two_right, ranks_right, group_addresses};
ghost use Rattle.rate_reader.specs.Reading.{length_fits, ss_type_right, ss_length_fits, ss_version_right, opcode_of, bands_of, count_of, pe1_of, rank1_of, pe2_of, rank2_of, of_band_two, start_for, extent_for, lengths_agree, field_value, rank_values};

use rate::{band_one_right, band_two_right, group_addresses, opcode_right, ranks_right, some_band};

#[tactic(auto, unfolding(crate::specs::Reading::length_fits))]
pub(crate) fn length(frame: &[u8]) -> bool
    ensures { result ≡ length_fits frame.now }
{
    wire::between(frame.len(), 60, 1514)
}

pub(crate) fn ethertype(frame: &[u8]) -> bool
    ensures { result ≡ ethertype_right frame.now }
{
    wire::ethertype_right(frame)
}

#[tactic(auto, unfolding(crate::specs::Reading::ss_type_right))]
pub(crate) fn ss_type(frame: &[u8]) -> bool
    ensures { result ≡ ss_type_right frame.now }
{
    wire::octet(frame, 14) == 1
}

#[tactic(auto, unfolding(crate::specs::Reading::ss_length_fits))]
pub(crate) fn ss_length(frame: &[u8]) -> bool
    ensures { result ≡ ss_length_fits frame.now }
{
    let length = wire::octet(frame, 15) as usize;
    8 <= length && wire::lies_within(frame.len(), 16, length)
}

#[tactic(auto, unfolding(crate::specs::Reading::ss_version_right))]
pub(crate) fn ss_version(frame: &[u8]) -> bool
    ensures { result ≡ ss_version_right frame.now }
{
    wire::octet(frame, 16) == 0
}

pub(crate) fn opcode(frame: &[u8]) -> Option<u8>
    ensures { option_says field_value 15 result ≡ ruled (opcode_right (opcode_of frame.now) else 15) (opcode_of frame.now ∷ []) }
{
    let opcode = wire::octet(frame, 17);
    opcode_right(opcode).then_some(opcode)
}

pub(crate) fn bands(frame: &[u8]) -> Option<u8>
    ensures { option_says field_value 16 result ≡ ruled (some_band (bands_of frame.now) else 16) (bands_of frame.now ∷ []) }
{
    let bands = wire::octet(frame, 18);
    some_band(bands).then_some(bands)
}

#[tactic(auto, unfolding(crate::specs::Reading::lengths_agree))]
pub(crate) fn addresses(frame: &[u8]) -> Option<u8>
    ensures { option_says field_value 17 result ≡ ruled (lengths_agree frame.now else 17) (count_of frame.now ∷ []) }
{
    let count = wire::octet(frame, 19);
    let length = wire::octet(frame, 15) as usize;
    let counted = 6 + 2 * wire::octet(frame, 18) as usize + 6 * count as usize;
    (length == counted).then_some(count)
}

pub(crate) fn band_one(frame: &[u8]) -> Option<u8>
    ensures { option_says field_value 18 result ≡ ruled (band_one_right (pe1_of frame.now) else 18) (pe1_of frame.now ∷ []) }
{
    let pe = wire::octet(frame, 20);
    band_one_right(pe).then_some(pe)
}

pub(crate) fn band_two(frame: &[u8]) -> Option<u8>
    ensures { option_says field_value 19 result ≡ ruled (band_two_right (bands_of frame.now) (pe2_of frame.now) else 19) (pe2_of frame.now ∷ []) }
{
    let pe = of_band_two(frame, 22);
    band_two_right(wire::octet(frame, 18), pe).then_some(pe)
}

// Both ranks at once, since number 20 speaks of the two.
pub(crate) fn ranks(frame: &[u8]) -> Option<(u8, u8)>
    ensures { option_says rank_values 20 result ≡ ruled (ranks_right (bands_of frame.now) (rank1_of frame.now) (rank2_of frame.now) else 20) (rank1_of frame.now ∷ rank2_of frame.now ∷ []) }
{
    let rank1 = wire::octet(frame, 21);
    let rank2 = of_band_two(frame, 23);
    ranks_right(wire::octet(frame, 18), rank1, rank2).then_some((rank1, rank2))
}

// The addresses lie where the counts that were read say.
pub(crate) fn groups(frame: &[u8], start: usize, extent: usize) -> bool
    ensures { result ≡ group_addresses (part_at frame.now start extent) }
{
    group_addresses(wire::part(frame, start, extent))
}

pub(crate) fn next_ethertype(frame: &[u8]) -> bool
    ensures { result ≡ next_ethertype_zero frame.now }
{
    wire::next_ethertype_zero(frame)
}

// Where the addresses start: bands past the second are skipped unread.
pub(crate) fn start(bands: u8) -> usize
    ensures { result ≡ start_for bands }
{
    20 + 2 * bands as usize
}

// How many octets hold the addresses.
pub(crate) fn extent(addresses: u8) -> usize
    ensures { result ≡ extent_for addresses }
{
    6 * addresses as usize
}

// An octet of band 2, or 0 where there is no band 2.
#[tactic(auto, unfolding(crate::specs::Reading::of_band_two))]
fn of_band_two(frame: &[u8], at: usize) -> u8
    ensures { result ≡ of_band_two frame.now at }
{
    if 2 <= wire::octet(frame, 18) {
        wire::octet(frame, at)
    } else {
        0
    }
}
