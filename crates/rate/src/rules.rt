// The rules that a request keeps, whether it is read or written: numbers 15, 16 and 18 to 21.
ghost use Rattle.std.specs.Prelude.{◌≡◌};
ghost use Rattle.rate.specs.Request.{opcode_right, some_band, band_one_right, band_two_right, ranks_right, group_addresses};

#[tactic(auto, unfolding(crate::specs::Request::opcode_right))]
pub fn opcode_right(opcode: u8) -> bool
    ensures { result ≡ opcode_right opcode }
{
    opcode <= 2
}

#[tactic(auto, unfolding(crate::specs::Request::some_band))]
pub fn some_band(bands: u8) -> bool
    ensures { result ≡ some_band bands }
{
    bands != 0
}

#[tactic(auto, unfolding(crate::specs::Request::band_one_right))]
pub fn band_one_right(pe: u8) -> bool
    ensures { result ≡ band_one_right pe }
{
    wire::between(pe as usize, 1, 7)
}

#[tactic(auto, unfolding(crate::specs::Request::band_two_right))]
pub fn band_two_right(bands: u8, pe: u8) -> bool
    ensures { result ≡ band_two_right bands pe }
{
    bands < 2 || pe == 0 || wire::between(pe as usize, 9, 15)
}

#[tactic(auto, unfolding(crate::specs::Request::ranks_right))]
pub fn ranks_right(bands: u8, rank1: u8, rank2: u8) -> bool
    ensures { result ≡ ranks_right bands rank1 rank2 }
{
    rank1 != 0 && (bands < 2 || (rank2 != 0 && rank1 != rank2))
}

// By number: `chunks_exact` takes 13 instructions an address more, with which a read of 40 addresses costs 2.8 times the cheapest peer (the target is 1.3).
pub fn group_addresses(addresses: &[u8]) -> bool
    ensures { result ≡ group_addresses addresses.now }
{
    for k in 0..addresses.len() / 6 {
        if addresses[6 * k] % 2 != 1 {
            return false;
        }
    }
    true
}
