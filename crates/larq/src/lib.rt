#![tactic(auto)]
// The rules of the LARQ receiver: definitions under specs/, and what follows from them under proofs/. The house's constants, the test of the room that
// an answer may need, and the refusals by name are all the code.
mod refused;

ghost use Rattle.std.specs.Prelude.{◌≡◌};
ghost use Rattle.larq.specs.Channel.{window};
ghost use Rattle.larq.specs.Settling.{hold};
ghost use Rattle.larq.specs.Table.{has_room};

pub use refused::Refused;

// The waiting window: 32 numbers (document 01, 'Numbers in a ring of 4,096').
pub const WINDOW: u16 = 32;

// What an answer may need of a buffer: an entry for each number of the window (number 1).
pub const ROOM: usize = WINDOW as usize;

// How long a missing number is waited for: 150 ticks (document 01, 'Tick').
pub const HOLD: u64 = 150;

// The window and the hold time are those of the rules. (No clause can stand at a constant: the promises name these two functions.)
pub fn window() -> u16
    ensures { result ≡ window }
{
    WINDOW
}

pub fn hold() -> u64
    ensures { result ≡ hold }
{
    HOLD
}

// Whether the three answer buffers have the room that any answer may need.
pub fn has_room(up: usize, returned: usize, nack: usize) -> bool
    ensures { result ≡ has_room window up returned nack }
{
    (ROOM <= up) & ((ROOM <= returned) & (ROOM <= nack))
}
