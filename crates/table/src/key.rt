// A channel's key as it is stored: two words (document 01, 'The channel table').
ghost use Rattle.std.specs.Prelude.{◌≡◌, ◌+◌, ◌*◌, ◌<◌};
ghost use Rattle.table.specs.Key.{address_of};
ghost use Rattle.table.specs.Words.{key_in, words_of};

// Six octets as one big-endian number.
pub fn address(octets: &[u8; 6]) -> u64
    ensures { (result ≡ address_of octets.now) × (result < 281474976710656) }
{
    u64::from_be_bytes([
        0, 0, octets[0], octets[1], octets[2], octets[3], octets[4], octets[5],
    ])
}

// The first word of a key. It is never 0, which marks a free place; the second word is the source.
pub fn first_word(destination: &[u8; 6], priority: u8) -> u64
    ensures { result ≡ address_of destination.now * 16 + priority + 1 }
{
    address(destination) * 16 + (priority as u64) + 1
}

// A channel, as a host names it: two addresses and a priority.
#[derive(Clone, Copy)]
pub struct Key<'a> {
    pub destination: &'a [u8; 6],
    pub source: &'a [u8; 6],
    pub priority: u8,
}

// A key as the table stores it, with its priority beside the two words, the first of which has it too.
#[derive(Clone, Copy)]
pub struct StoredKey {
    pub first: u64,
    pub second: u64,
    pub priority: u8,
}

impl<'a> Key<'a> {
    pub fn stored(self) -> StoredKey
        ensures { result ≡ words_of (key_in self.entry) }
    {
        StoredKey {
            first: first_word(self.destination, self.priority),
            second: address(self.source),
            priority: self.priority,
        }
    }
}
