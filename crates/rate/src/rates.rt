// The rate of a PE, by a table, and the chosen band of a request (document 01, 'Rate of a PE').
ghost use Rattle.std.specs.Prelude.{◌≡◌, ◌<◌, unwrap_or, option_map};
ghost use Rattle.rate.specs.Rates.{rate_of, band_of, chosen_of, rate_of_band};

use crate::Request;

// The rate of each PE in Mbit/s; 0 where it has none. A constant table, as document 01 has it.
const RATES: [u8; 16] = [0, 4, 6, 8, 10, 12, 14, 16, 0, 8, 12, 16, 20, 24, 28, 32];

#[derive(Clone, Copy, Debug, PartialEq, Eq)]
pub enum Band {
    One,
    Two,
}

impl From<Band> for u8 {
    ghost from_gives = { λ band number. number ≡ band_of band };

    fn from(band: Band) -> u8 {
        match band {
            Band::One => 1,
            Band::Two => 2,
        }
    }
}

// The rate of a PE in Mbit/s.
pub fn rate_of(pe: u8) -> Option<u8>
    ensures { result ≡ rate_of pe }
{
    if 16 <= pe {
        return None;
    }
    let mbit = entry(pe as usize);
    (mbit != 0).then_some(mbit)
}

fn entry(pe: usize) -> u8
    requires { pe < 16 }
    ensures { result ≡ unwrap_or (rate_of pe) 0 }
{
    RATES[pe]
}

// The chosen band: a PE of 0 is never chosen, and of two others the lower rank is.
#[tactic(auto, unfolding(crate::specs::Rates::chosen_of))]
pub fn chosen_band(request: Request) -> Option<Band>
    ensures { option_map band_of result ≡ chosen_of request }
{
    if request.pe1 == 0 {
        return (request.pe2 != 0).then_some(Band::Two);
    }
    if request.pe2 != 0 && request.rank2 < request.rank1 {
        Some(Band::Two)
    } else {
        Some(Band::One)
    }
}

// The rate of the chosen band.
pub fn chosen_rate(request: Request) -> Option<u8>
    ensures { result ≡ rate_of_band request (chosen_of request) }
{
    match chosen_band(request)? {
        Band::One => rate_of(request.pe1),
        Band::Two => rate_of(request.pe2),
    }
}
