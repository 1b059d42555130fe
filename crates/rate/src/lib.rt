#![tactic(auto)]
// The rate request: the rules that it keeps, the writer of its control frame, the rate of a PE and the chosen band (document 01, 'Rate requests, in this
// order', 'The rate request on the wire' and 'Rate of a PE'; 001, clause 6.3.1). The reader is the crate rate_reader.
mod rates;
mod refused;
mod rules;
mod writer;

pub use rates::{Band, chosen_band, chosen_rate, rate_of};
pub use refused::Refused;
pub use rules::{
    band_one_right, band_two_right, group_addresses, opcode_right, ranks_right, some_band,
};
pub use writer::{told, write};

// A request, as it is read and as it is to be written. Its addresses stand beside it, in the octets that hold them.
#[derive(Clone, Copy, Debug, PartialEq, Eq, Default)]
pub struct Request {
    pub destination: [u8; 6],
    pub source: [u8; 6],
    pub opcode: u8,
    pub bands: u8,
    pub pe1: u8,
    pub rank1: u8,
    pub pe2: u8,
    pub rank2: u8,
}
