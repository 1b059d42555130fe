#![tactic(auto)]
// The events of a recorded session, read from octets: one body at a time, and the length that stands before it (docs/LAYOUT.md, 'Sessions').
// Any slice may be handed in: of what is no body of a known kind and length nothing is read.
mod kind;
mod layout;
mod numbers;

pub use layout::{length, read, rest};
pub use numbers::octets;

// A channel's key. An address is its six octets as one number: numbers are all that a body says, and they give the answer back (proofs/OneAnswer).
#[derive(Clone, Copy)]
pub struct Key {
    pub destination: u64,
    pub source: u64,
    pub priority: u8,
}

// The fixed fields of a rate request to be written.
#[derive(Clone, Copy)]
pub struct Request {
    pub destination: u64,
    pub source: u64,
    pub opcode: u8,
    pub bands: u8,
    pub pe1: u8,
    pub rank1: u8,
    pub pe2: u8,
    pub rank2: u8,
}

// What a body asks for. The frame of `Read` and the addresses of `Write` stay in the body: `rest` gives them.
#[derive(Clone, Copy)]
pub enum Body {
    Data {
        key: Key,
        time: u64,
        number: u16,
        handle: u32,
    },
    Reminder {
        key: Key,
        time: u64,
        number: u16,
    },
    Tick {
        key: Key,
        time: u64,
    },
    Close {
        key: Key,
        time: u64,
    },
    // A look at a channel's record.
    Look {
        key: Key,
    },
    // A fresh station, with this default set.
    Fresh {
        default: u32,
    },
    Use {
        flags: u32,
    },
    // The end of a period.
    Period,
    // A capability frame: its opcode, and its sender's OldestTx, CurrentTx and CurrentRx.
    Received {
        opcode: u8,
        oldest: u32,
        current: u32,
        heard: u32,
    },
    // A rate frame.
    Read,
    // A rate request, and the room of the output.
    Write {
        request: Request,
        room: u16,
    },
}
